//! Whole scripts. The pieces that are looked for come from a script in Python that follows the rules alone.

ghost use Rattle.std.specs.Prelude.{◌≤◌};

use super::make;
use std::process::Abort;
use std::test::Fail;

/// The script of one function, whole.
const ONE: &str =
    "put taint.config 260\n{\"sources\":[{\"name\":\"UserControlled\"}],\"sinks\":[{\"name\":\"RemoteCodeExecution\"}],\"features\":[],\"rules\":[{\"name\":\"Possible RCE\",\"code\":5001,\"sources\":[\"UserControlled\"],\"sinks\":[\"RemoteCodeExecution\"],\"message_format\":\"Data from {$sources} may reach {$sinks}\"}]}\nput general.pysa 108\ndef input() -> TaintSource[UserControlled]: ...\ndef os.system(command: TaintSink[RemoteCodeExecution]): ...\n\nput m0.py 34\nimport os\ndef f0(x):\n    return x\n\nend\n";

/// A project with what stands where in its script.
struct Row {
    number: u64,
    size: u32,
    len: usize,
    pieces: &'static [(usize, &'static str)],
}

/// Three modules, of which the last has 20 functions.
const THREE_MODULES: Row = Row {
    number: 7,
    size: 120,
    len: 4256,
    pieces: &[
        (0, "put taint.config 260\n{\"sources\""),
        (280, "}\nput general.pysa 108\ndef input() -> TaintSource"),
        (
            408,
            "..\n\nput m0.py 1564\nimport os\nimport m1\nimport m2\ndef f0(x):\n    os.system(f39(x))\ndef f1(x):\n    return x\ndef f2(x):\n    return m1.f68(x)\ndef f3(x):\n    return f28(x)\n",
        ),
        (
            631,
            "def f6(x):\n    return input()\ndef f7(x):\n    return input()\n",
        ),
        (
            1920,
            "def f48(x):\n    os.system(f36(x))\ndef f49(x):\n    os.system(m1.f82(x))\n\nput m1.py 1560\nimport os\nimport m0\nimport m2\ndef f50(x):\n    return input()\n",
        ),
        (
            2068,
            "def f51(x):\n    os.system(m2.f103(x))\ndef f52(x):\n    return m0.f19(x)\n",
        ),
        (
            3542,
            "def f99(x):\n    return x\n\nput m2.py 669\nimport os\nimport m0\nimport m1\ndef f100(x):\n    return input()\ndef f101(x):\n    os.system(m0.f21(x))\n",
        ),
        (
            4187,
            "def f118(x):\n    os.system(m1.f57(x))\ndef f119(x):\n    return x\n\nend\n",
        ),
    ],
};

/// One module that is full.
const FULL_MODULE: Row = Row {
    number: u64::MAX,
    size: 50,
    len: 1938,
    pieces: &[(412, "put m0.py 1506\nimport os\ndef f0(x):\n")],
};

/// One function more than a module has.
const ONE_MORE: Row = Row {
    number: 12345,
    size: 51,
    len: 2011,
    pieces: &[
        (412, "put m0.py 1508\nimport os\nimport m1\ndef f0(x):\n"),
        (
            1935,
            "\nput m1.py 57\nimport os\nimport m0\ndef f50(x):\n    os.system(m0.f21(x))\n\nend\n",
        ),
    ],
};

/// Whether `piece` stands at `at`.
fn has_at(script: &[u8], at: usize, piece: &str) -> bool {
    match script.get(at..) {
        Some(rest) => rest.starts_with(piece.as_bytes()),
        None => false,
    }
}

fn expect_row(rt: &(impl Abort + AllocGlobal), row: &Row) -> Result<(), Fail>
    requires some { 1 ≤ row.now.size }
    requires small { row.now.size ≤ 50000 }
{
    let script = make(rt.alloc(), row.number, row.size)?;
    assert_eq!(rt; script.len(), row.len);
    for (at, piece) in row.pieces {
        assert!(rt; has_at(&script, *at, piece), "{piece}");
    }
    Ok(())
}

#[test]
fn one_function(rt: HostRuntime) -> Result<(), Fail> {
    let script = make(rt.alloc(), 0, 1)?;
    assert_eq!(rt; script.as_slice(), ONE.as_bytes());
    Ok(())
}

#[test]
fn pieces_stand_in_their_places(rt: HostRuntime) -> Result<(), Fail> {
    expect_row(&rt, &THREE_MODULES)?;
    expect_row(&rt, &FULL_MODULE)?;
    expect_row(&rt, &ONE_MORE)
}
