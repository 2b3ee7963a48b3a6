//! What no clause says: files by hand with the fault that their rules tell, alone and two at once; the limits, and one
//! either side of each; a configuration as a user of Pysa has it; and that a call can succeed.

use rv_names::Name;
use std::alloc::{AllocError, Global};
use std::process::Abort;
use std::test::Fail;
use taint_config::*;

/// A configuration of one rule, 260 bytes.
const ONE_RULE: &str =
    "{\"sources\":[{\"name\":\"UserControlled\"}],\"sinks\":[{\"name\":\"RemoteCodeExecution\"}],\"features\":[],\"rules\":[{\"name\":\"Possible RCE\",\"code\":5001,\"sources\":[\"UserControlled\"],\"sinks\":[\"RemoteCodeExecution\"],\"message_format\":\"Data from {$sources} may reach {$sinks}\"}]}";

/// A configuration as a user of Pysa has it, with keys that are read by other analyses.
const PYSA: &str = "{
  \"comment\": \"Taint of the service.\",
  \"sources\": [
    { \"name\": \"UserControlled\", \"comment\": \"what a user sends\" },
    { \"name\": \"Cookies\", \"kind\": \"transform\", \"See also\": null },
    { \"name\": \"lambda\" }
  ],
  \"sinks\": [
    { \"name\": \"SQL\" },
    { \"comment\": \"printed\", \"name\": \"Logging\", \"multi_sink_labels\": [] },
    { \"name\": \"Cookies\" }
  ],
  \"features\": [ { \"name\": \"copy\" }, { \"name\": \"copy\", \"comment\": \"again\" }, { \"name\": \"via: x\", \"kind\": 1 } ],
  \"rules\": [
    {
      \"name\": \"SQL injection\", \"code\": 5005, \"oncall\": \"security\",
      \"sources\": [\"UserControlled\", \"Cookies\"], \"sinks\": [\"SQL\"],
      \"message_format\": \"Data from {$sources} may reach {$sinks}\"
    },
    {
      \"code\": 0, \"name\": \"SQL injection\", \"message_format\": \"\",
      \"sinks\": [\"Cookies\", \"Logging\", \"Cookies\"], \"sources\": [\"lambda\"], \"kind\": 2
    },
    { \"name\": \"\", \"code\": 4294967295, \"sources\": [], \"sinks\": [], \"message_format\": \"é\" }
  ],
  \"options\": { \"maximum_trace_length\": 20 },
  \"combined_source_rules\": [],
  \"implicit_sinks\": {}
}";

fn told(alloc: Global, text: &str) -> &'static str {
    match read_config(alloc, text.as_bytes()) {
        Ok(_) => "accepted",
        Err(fault) => fault.name(),
    }
}

fn all_told(rt: &(impl Abort + Alloc<A = Global>), cases: &[(&str, &str)]) {
    for (text, answer) in cases {
        assert_eq!(rt; told(rt.alloc(), text), *answer, "{text}");
    }
}

/// A configuration with these sources, sinks, rules and features.
fn put_together(
    alloc: Global,
    sources: &str,
    sinks: &str,
    rules: &str,
    features: &str,
) -> Result<String, AllocError> {
    format!(in alloc;
        "{{\"sources\":[{sources}],\"sinks\":[{sinks}],\"rules\":[{rules}],\"features\":[{features}]}}"
    )
}

/// The answers where only the sources are not the usual ones, and so on.
fn sources_told(rt: &(impl Abort + Alloc<A = Global>), cases: &[(&str, &str)]) -> Result<(), Fail> {
    for (sources, answer) in cases {
        let text = put_together(rt.alloc(), sources, "", "", "")?;
        assert_eq!(rt;
            told(rt.alloc(), text.as_str()),
            *answer,
            "source {sources}"
        );
        let text = put_together(rt.alloc(), "", sources, "", "")?;
        assert_eq!(rt; told(rt.alloc(), text.as_str()), *answer, "sink {sources}");
    }
    Ok(())
}

fn rules_told(rt: &(impl Abort + Alloc<A = Global>), cases: &[(&str, &str)]) -> Result<(), Fail> {
    let sources = "{\"name\":\"a\"},{\"name\":\"b\"}";
    let sinks = "{\"name\":\"b\"},{\"name\":\"c\"}";
    for (rules, answer) in cases {
        let text = put_together(rt.alloc(), sources, sinks, rules, "")?;
        assert_eq!(rt; told(rt.alloc(), text.as_str()), *answer, "rule {rules}");
    }
    Ok(())
}

fn codes_told(rt: &(impl Abort + Alloc<A = Global>), cases: &[(&str, &str)]) -> Result<(), Fail> {
    for (code, answer) in cases {
        let rule = format!(in rt.alloc();
            "{{\"name\":\"r\",\"code\":{code},\"sources\":[],\"sinks\":[],\"message_format\":\"m\"}}"
        )?;
        let text = put_together(rt.alloc(), "", "", rule.as_str(), "")?;
        assert_eq!(rt; told(rt.alloc(), text.as_str()), *answer, "code {code}");
    }
    Ok(())
}

/// So many kinds, whose names begin with the letter.
fn many(alloc: Global, letter: char, count: u32) -> Result<String, AllocError> {
    let mut text = String::new(alloc);
    for k in 0..count {
        if k > 0 {
            text.push_str(",")?;
        }
        let one = format!(in alloc; "{{\"name\":\"{letter}{k}\"}}")?;
        text.push_str(one.as_str())?;
    }
    Ok(text)
}

fn joined(alloc: Global, names: &[Name]) -> Result<String, AllocError> {
    let mut text = String::new(alloc);
    for name in names {
        text.push_str(name.as_str())?;
        text.push_str(" ")?;
    }
    Ok(text)
}

fn lines(alloc: Global, texts: &[rv_names::Text]) -> Result<String, AllocError> {
    let mut text = String::new(alloc);
    for line in texts {
        text.push_str(line.as_str())?;
        text.push_str("\n")?;
    }
    Ok(text)
}

/// A rule in one line.
fn shown(alloc: Global, rule: &Rule) -> Result<String, AllocError> {
    let name = rule.name().as_str();
    let message = rule.message().as_str();
    format!(in alloc;
        "{name}|{}|{:?}|{:?}|{message}",
        rule.code(),
        rule.sources(),
        rule.sinks()
    )
}

#[test]
fn whole_files(rt: HostRuntime) -> Result<(), Fail> {
    assert_eq!(rt; ONE_RULE.len(), 260);
    assert_eq!(rt; told(rt.alloc(), ONE_RULE), "accepted");
    let cases = [
        ("", "NotJson"),
        ("{", "NotJson"),
        ("\u{feff}{}", "NotJson"),
        ("{}{}", "NotJson"),
        ("{'sources':[]}", "NotJson"),
        ("{\"sources\":[],}", "NotJson"),
        ("null", "WrongType"),
        ("[]", "WrongType"),
        ("\"sources\"", "WrongType"),
        ("{}", "Missing"),
        ("{\"sources\":[],\"sinks\":[],\"rules\":[]}", "accepted"),
        (
            " {\"rules\":[],\n\"sinks\":[],\t\"sources\":[]}\r\n",
            "accepted",
        ),
        ("{\"sinks\":[],\"rules\":[]}", "Missing"),
        ("{\"sources\":[],\"rules\":[]}", "Missing"),
        ("{\"sources\":[],\"sinks\":[]}", "Missing"),
        ("{\"sources\":{},\"sinks\":[],\"rules\":[]}", "WrongType"),
        ("{\"sources\":[],\"sinks\":null,\"rules\":[]}", "WrongType"),
        ("{\"sources\":[],\"sinks\":[],\"rules\":0}", "WrongType"),
        (
            "{\"sources\":[],\"sinks\":[],\"rules\":[],\"features\":null}",
            "WrongType",
        ),
        (
            "{\"sources\":null,\"sinks\":[],\"rules\":[],\"sources\":[]}",
            "accepted",
        ),
        (
            "{\"sources\":[],\"sinks\":[],\"rules\":[],\"sources\":null}",
            "WrongType",
        ),
    ];
    all_told(&rt, &cases);
    assert_eq!(rt;
        read_config(rt.alloc(), b"{\"sources\":[\"\xff\"]}").map(|_| ()),
        Err(ConfigError::NotJson)
    );
    Ok(())
}

// Two at once, in both orders.
#[test]
fn whole_files_with_two_faults(rt: HostRuntime) {
    let cases = [
        ("{\"sources\":null,\"rules\":[]}", "WrongType"),
        ("{\"sinks\":null,\"rules\":[]}", "Missing"),
        ("{\"sources\":[{}],\"sinks\":null,\"rules\":[]}", "Missing"),
        (
            "{\"sources\":null,\"sinks\":[{}],\"rules\":[]}",
            "WrongType",
        ),
        (
            "{\"sources\":[],\"sinks\":[],\"rules\":[{}],\"features\":0}",
            "Missing",
        ),
        (
            "{\"sources\":[],\"sinks\":[],\"rules\":[0],\"features\":[{}]}",
            "WrongType",
        ),
        (
            "{\"sources\":[],\"sinks\":[],\"rules\":[],\"features\":[{}, 0]}",
            "Missing",
        ),
        (
            "{\"sources\":[],\"sinks\":[],\"rules\":[],\"features\":[0, {}]}",
            "WrongType",
        ),
        (
            "{\"sources\":[],\"sinks\":[],\"rules\":[],\"features\":[{\"name\":\"\",\"comment\":0}]}",
            "WrongType",
        ),
    ];
    all_told(&rt, &cases);
}

#[test]
fn kinds(rt: HostRuntime) -> Result<(), Fail> {
    let cases = [
        (
            "{\"name\":\"a\"},{\"name\":\"A\"},{\"name\":\"_9\"}",
            "accepted",
        ),
        ("{\"name\":\"while\",\"comment\":\"\"}", "accepted"),
        (
            "{\"name\":\"a234567890123456789012345678901234567890123456789012345678901234\"}",
            "accepted",
        ),
        (
            "{\"name\":\"a2345678901234567890123456789012345678901234567890123456789012345\"}",
            "WrongType",
        ),
        ("{\"name\":\"\"}", "WrongType"),
        ("{\"name\":\"9\"}", "WrongType"),
        ("{\"name\":\"a-b\"}", "WrongType"),
        ("{\"name\":\"a b\"}", "WrongType"),
        ("{\"name\":\"é\"}", "WrongType"),
        ("{\"name\":[\"a\"]}", "WrongType"),
        ("\"a\"", "WrongType"),
        ("{}", "Missing"),
        ("{\"Name\":\"a\"}", "Missing"),
        ("{\"name\":\"a\",\"comment\":null}", "WrongType"),
        (
            "{\"name\":\"a\"},{\"name\":\"b\"},{\"name\":\"a\"}",
            "Twice",
        ),
        // Two at once: by the place of the item, and then of the field.
        ("{\"name\":\"a\"},{\"name\":\"a\"},{}", "Twice"),
        ("{\"name\":\"a\"},{},{\"name\":\"a\"}", "Missing"),
        ("{\"name\":\"a\"},{\"name\":\"a\",\"comment\":0}", "Twice"),
        (
            "{\"name\":\"a\",\"comment\":0},{\"name\":\"a\"}",
            "WrongType",
        ),
        ("{\"comment\":0}", "Missing"),
    ];
    sources_told(&rt, &cases)
}

#[test]
fn rules(rt: HostRuntime) -> Result<(), Fail> {
    let cases = [
        (
            "{\"name\":\"r\",\"code\":1,\"sources\":[\"a\",\"b\",\"a\"],\"sinks\":[\"c\",\"b\"],\"message_format\":\"m\"}",
            "accepted",
        ),
        (
            "{\"code\":1,\"sources\":[],\"sinks\":[],\"message_format\":\"m\"}",
            "Missing",
        ),
        (
            "{\"name\":\"r\",\"sources\":[],\"sinks\":[],\"message_format\":\"m\"}",
            "Missing",
        ),
        (
            "{\"name\":\"r\",\"code\":1,\"sinks\":[],\"message_format\":\"m\"}",
            "Missing",
        ),
        (
            "{\"name\":\"r\",\"code\":1,\"sources\":[],\"message_format\":\"m\"}",
            "Missing",
        ),
        (
            "{\"name\":\"r\",\"code\":1,\"sources\":[],\"sinks\":[]}",
            "Missing",
        ),
        (
            "{\"name\":1,\"code\":1,\"sources\":[],\"sinks\":[],\"message_format\":\"m\"}",
            "WrongType",
        ),
        (
            "{\"name\":\"r\",\"code\":1,\"sources\":\"a\",\"sinks\":[],\"message_format\":\"m\"}",
            "WrongType",
        ),
        (
            "{\"name\":\"r\",\"code\":1,\"sources\":[],\"sinks\":[[]],\"message_format\":\"m\"}",
            "WrongType",
        ),
        (
            "{\"name\":\"r\",\"code\":1,\"sources\":[],\"sinks\":[],\"message_format\":null}",
            "WrongType",
        ),
    ];
    rules_told(&rt, &cases)
}

#[test]
fn rules_of_unknown_kinds(rt: HostRuntime) -> Result<(), Fail> {
    let cases = [
        (
            "{\"name\":\"r\",\"code\":1,\"sources\":[\"c\"],\"sinks\":[],\"message_format\":\"m\"}",
            "UnknownKind",
        ),
        (
            "{\"name\":\"r\",\"code\":1,\"sources\":[],\"sinks\":[\"a\"],\"message_format\":\"m\"}",
            "UnknownKind",
        ),
        (
            "{\"name\":\"r\",\"code\":1,\"sources\":[\"a b\"],\"sinks\":[],\"message_format\":\"m\"}",
            "UnknownKind",
        ),
        (
            "{\"name\":\"r\",\"code\":1,\"sources\":[\"\"],\"sinks\":[],\"message_format\":\"m\"}",
            "UnknownKind",
        ),
    ];
    rules_told(&rt, &cases)
}

// Two at once: in one field the wrong type first, then by the place of the field, and of the item.
#[test]
fn rules_with_two_faults(rt: HostRuntime) -> Result<(), Fail> {
    let cases = [
        (
            "{\"name\":\"r\",\"code\":1,\"sources\":[\"x\",0],\"sinks\":[],\"message_format\":\"m\"}",
            "WrongType",
        ),
        (
            "{\"name\":\"r\",\"code\":1,\"sources\":[\"x\"],\"sinks\":[0],\"message_format\":\"m\"}",
            "UnknownKind",
        ),
        (
            "{\"name\":\"r\",\"code\":1,\"sources\":[0],\"sinks\":[\"x\"],\"message_format\":\"m\"}",
            "WrongType",
        ),
        (
            "{\"name\":\"r\",\"code\":-1,\"sources\":[\"x\"],\"sinks\":[],\"message_format\":\"m\"}",
            "WrongType",
        ),
        (
            "{\"name\":\"r\",\"code\":1,\"sources\":[\"x\"]}",
            "UnknownKind",
        ),
        (
            "{\"code\":1,\"sources\":[\"x\"],\"sinks\":[],\"message_format\":\"m\"}",
            "Missing",
        ),
        (
            "{\"name\":\"r\",\"code\":1,\"sources\":[],\"sinks\":[],\"message_format\":\"m\"},{\"name\":\"r\",\"code\":2,\"sources\":[],\"sinks\":[],\"message_format\":\"m\"}",
            "accepted",
        ),
        (
            "{\"name\":\"r\",\"code\":1,\"sources\":[],\"sinks\":[],\"message_format\":\"m\"},{\"name\":\"q\",\"code\":1,\"sources\":[],\"sinks\":[],\"message_format\":\"m\"}",
            "CodeTwice",
        ),
        (
            "{\"name\":\"r\",\"code\":1,\"sources\":[],\"sinks\":[],\"message_format\":\"m\"},{\"name\":\"q\",\"code\":1,\"sources\":[\"x\"],\"sinks\":[],\"message_format\":\"m\"}",
            "CodeTwice",
        ),
        (
            "{\"name\":\"r\",\"code\":1,\"sources\":[\"x\"],\"sinks\":[],\"message_format\":\"m\"},{\"name\":\"q\",\"code\":1,\"sources\":[],\"sinks\":[],\"message_format\":\"m\"}",
            "UnknownKind",
        ),
    ];
    rules_told(&rt, &cases)
}

#[test]
fn codes(rt: HostRuntime) -> Result<(), Fail> {
    let cases = [
        ("0", "accepted"),
        ("4294967295", "accepted"),
        ("4294967296", "WrongType"),
        ("18446744073709551616", "WrongType"),
        ("-1", "WrongType"),
        ("-0", "WrongType"),
        ("1.0", "WrongType"),
        ("1e3", "WrongType"),
        ("\"1\"", "WrongType"),
        ("01", "NotJson"),
    ];
    codes_told(&rt, &cases)
}

fn limits_told(
    rt: &(impl Abort + Alloc<A = Global>),
    cases: &[(u32, u32, &str, &str)],
) -> Result<(), Fail> {
    for (sources, sinks, rules, answer) in cases {
        let from = many(rt.alloc(), 'a', *sources)?;
        let to = many(rt.alloc(), 'b', *sinks)?;
        let text = put_together(rt.alloc(), from.as_str(), to.as_str(), rules, "")?;
        assert_eq!(rt;
            told(rt.alloc(), text.as_str()),
            *answer,
            "{sources} and {sinks}"
        );
    }
    Ok(())
}

#[test]
fn limits(rt: HostRuntime) -> Result<(), Fail> {
    let known =
        "{\"name\":\"r\",\"code\":1,\"sources\":[\"a250\"],\"sinks\":[\"b0\"],\"message_format\":\"m\"}";
    let unknown =
        "{\"name\":\"r\",\"code\":1,\"sources\":[\"a0\"],\"sinks\":[\"b300\"],\"message_format\":\"m\"}";
    let cases = [
        (255, 0, "", "accepted"),
        (256, 0, "", "TooManyKinds"),
        (0, 255, "", "accepted"),
        (0, 256, "", "TooManyKinds"),
        (251, 4, known, "accepted"),
        (251, 5, known, "TooManyKinds"),
        (251, 300, unknown, "UnknownKind"),
        (300, 301, unknown, "TooManyKinds"),
    ];
    limits_told(&rt, &cases)
}

fn names_shown(rt: &(impl Abort + Alloc<A = Global>), config: &Config) -> Result<(), Fail> {
    let sources = joined(rt.alloc(), config.sources())?;
    assert_eq!(rt; sources.as_str(), "UserControlled Cookies lambda ");
    let sinks = joined(rt.alloc(), config.sinks())?;
    assert_eq!(rt; sinks.as_str(), "SQL Logging Cookies ");
    Ok(())
}

fn texts_shown(rt: &(impl Abort + Alloc<A = Global>), config: &Config) -> Result<(), Fail> {
    let features = lines(rt.alloc(), config.features())?;
    assert_eq!(rt; features.as_str(), "copy\ncopy\nvia: x\n");
    let notes = lines(rt.alloc(), config.notes())?;
    let wanted =
        "combined_source_rules\ncomment\nimplicit_sinks\noptions\nSee also\nkind\nmulti_sink_labels\noncall\nkind\nkind\n";
    assert_eq!(rt; notes.as_str(), wanted);
    Ok(())
}

fn rules_shown(
    rt: &(impl Abort + Alloc<A = Global>),
    config: &Config,
    wanted: &[&str],
) -> Result<(), Fail> {
    assert_eq!(rt; config.rules().len(), wanted.len());
    for (rule, line) in config.rules().iter().zip(wanted) {
        let text = shown(rt.alloc(), rule)?;
        assert_eq!(rt; text.as_str(), *line);
    }
    Ok(())
}

/// A name has this number as a source, this one as a sink, and belongs to them.
fn numbers_told(
    rt: &(impl Abort + Alloc<A = Global>),
    config: &Config,
    cases: &[(&str, Option<u8>, Option<u8>)],
) -> Result<(), Fail> {
    for (text, source, sink) in cases {
        let name = Name::read(rt.alloc(), text)?;
        assert_eq!(rt; config.source_number(&name), *source, "source {text}");
        assert_eq!(rt; config.sink_number(&name), *sink, "sink {text}");
    }
    Ok(())
}

fn kinds_told(rt: &(impl Abort + Alloc<A = Global>), config: &Config, cases: &[(u8, &str)]) {
    for (number, wanted) in cases {
        let text = config.kind(*number).map_or("none", |name| name.as_str());
        assert_eq!(rt; text, *wanted, "kind {number}");
    }
}

#[test]
fn of_a_user(rt: HostRuntime) -> Result<(), Fail> {
    let config = read_config(rt.alloc(), PYSA.as_bytes())?;
    names_shown(&rt, &config)?;
    texts_shown(&rt, &config)?;
    let rules = [
        "SQL injection|5005|[0, 1]|[3]|Data from {$sources} may reach {$sinks}",
        "SQL injection|0|[2]|[5, 4, 5]|",
        "|4294967295|[]|[]|é",
    ];
    rules_shown(&rt, &config, &rules)?;
    let numbers = [
        ("Cookies", Some(1), Some(5)),
        ("SQL", None, Some(3)),
        ("UserControlled", Some(0), None),
        ("sql", None, None),
    ];
    numbers_told(&rt, &config, &numbers)?;
    let kinds = [
        (0, "UserControlled"),
        (2, "lambda"),
        (3, "SQL"),
        (5, "Cookies"),
        (6, "none"),
        (255, "none"),
    ];
    kinds_told(&rt, &config, &kinds);
    Ok(())
}
