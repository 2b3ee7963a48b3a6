//! A configuration and its rules.

ghost use Rattle.std.specs.Prelude.{◌≡◌, ◌++◌, length, option_copied, slice_get};
ghost use Rattle.taint_config.specs.Config.{IsConfig};
ghost use Rattle.taint_config.specs.Kinds.{number_from};

use indexmap::IndexSet;
use rv_names::{Name, Text};
use std::marker::Model;

/// The configuration of a taint analysis.
///
/// It has at most 255 sources and sinks together, no two sources and no two sinks of one name, and no two rules of one
/// code; each rule's sources are numbers of its sources, and each rule's sinks numbers of its sinks. A source has its place
/// from 0 on as its number, and the sinks are numbered after the sources.
#[derive(Drop)]
pub struct Config {
    sources: IndexSet<Name>,
    sinks: IndexSet<Name>,
    features: Vec<Text>,
    rules: Vec<Rule>,
    notes: Vec<Text>,
}

impl Model for Config {
    ghost use Rattle.taint_config.specs.Config.{ConfigParts, IsConfig};

    ghost Value = { ConfigParts };

    ghost view = { λ c. record {
      sources = c.sources.keys;
      sinks = c.sinks.keys;
      features = c.features.items;
      rules = c.rules.items;
      notes = c.notes.items;
    } };

    ghost invariant = { λ c. IsConfig c.sources.keys c.sinks.keys c.rules.items };
}

impl Config {
    pub(crate) fn new(parts: Parts, notes: Vec<Text>) -> Config
        requires { IsConfig parts.sources.keys parts.sinks.keys parts.rules.items }
        ensures { result ≡ record {
          sources = parts.sources.keys;
          sinks = parts.sinks.keys;
          features = parts.features.items;
          rules = parts.rules.items;
          notes = notes.items;
        } }
    {
        Config {
            sources: parts.sources,
            sinks: parts.sinks,
            features: parts.features,
            rules: parts.rules,
            notes,
        }
    }

    /// The names of the sources, each at its number.
    pub fn sources(&self) -> &[Name]
        ensures names { result.now ≡ self.now.sources }
        ensures facts { IsConfig self.now.sources self.now.sinks self.now.rules }
    {
        self.sources.as_slice()
    }

    /// The names of the sinks. The number of the first is the number of sources.
    pub fn sinks(&self) -> &[Name]
        ensures names { result.now ≡ self.now.sinks }
        ensures facts { IsConfig self.now.sources self.now.sinks self.now.rules }
    {
        self.sinks.as_slice()
    }

    /// The names of the features, in which a name may stand more than once.
    pub fn features(&self) -> &[Text]
        ensures { result.now ≡ self.now.features }
    {
        self.features.as_slice()
    }

    /// The rules, in the order in which they stand.
    pub fn rules(&self) -> &[Rule]
        ensures rules { result.now ≡ self.now.rules }
        ensures facts { IsConfig self.now.sources self.now.sinks self.now.rules }
    {
        self.rules.as_slice()
    }

    /// The ignored keys: of the configuration, then of each source, sink, rule and feature, and in one object by their
    /// bytes. A key that is ignored in two objects stands twice.
    pub fn notes(&self) -> &[Text]
        ensures { result.now ≡ self.now.notes }
    {
        self.notes.as_slice()
    }

    /// The number of the source of that name: `None` exactly where there is none.
    pub fn source_number(&self, name: &Name) -> Option<u8>
        ensures { result ≡ number_from 0 self.now.sources name.now }
    {
        let place = self.sources.get_index_of(name)?;
        Some(place as u8)
    }

    /// The number of the sink of that name: `None` exactly where there is none.
    pub fn sink_number(&self, name: &Name) -> Option<u8>
        ensures { result ≡ number_from (length self.now.sources) self.now.sinks name.now }
    {
        let place = self.sinks.get_index_of(name)?;
        Some((self.sources.len() + place) as u8)
    }

    /// The name of the source or sink with that number: `None` exactly past the last number.
    pub fn kind(&self, number: u8) -> Option<&Name>
        ensures { option_copied result ≡ slice_get (self.now.sources ++ self.now.sinks) number }
    {
        let place = number as usize;
        if place < self.sources.len() {
            self.sources.get_index(place)
        } else {
            self.sinks.get_index(place - self.sources.len())
        }
    }
}

/// What a configuration says, before its notes are known.
#[derive(Drop)]
pub(crate) struct Parts {
    pub(crate) sources: IndexSet<Name>,
    pub(crate) sinks: IndexSet<Name>,
    pub(crate) rules: Vec<Rule>,
    pub(crate) features: Vec<Text>,
}

/// A rule: an issue is told where one of its sources reaches one of its sinks.
#[derive(Drop)]
pub struct Rule {
    name: Text,
    code: u32,
    sources: Vec<u8>,
    sinks: Vec<u8>,
    message: Text,
}

impl Model for Rule {
    ghost use Rattle.taint_config.specs.Config.{RuleParts};

    ghost Value = { RuleParts };

    ghost view = { λ r. record {
      name = r.name;
      code = r.code;
      sources = r.sources.items;
      sinks = r.sinks.items;
      message = r.message;
    } };
}

impl Rule {
    pub(crate) fn new(
        name: Text,
        code: u32,
        sources: Vec<u8>,
        sinks: Vec<u8>,
        message: Text,
    ) -> Rule
        ensures { result ≡ record {
          name = name;
          code = code;
          sources = sources.items;
          sinks = sinks.items;
          message = message;
        } }
    {
        Rule {
            name,
            code,
            sources,
            sinks,
            message,
        }
    }

    /// Its name, which other rules may have too.
    pub fn name(&self) -> &Text
        ensures { result.now ≡ self.now.name }
    {
        &self.name
    }

    /// Its code, which no other rule of the configuration has.
    pub fn code(&self) -> u32
        ensures { result ≡ self.now.code }
    {
        self.code
    }

    /// The numbers of its sources, as the configuration lists them.
    pub fn sources(&self) -> &[u8]
        ensures { result.now ≡ self.now.sources }
    {
        self.sources.as_slice()
    }

    /// The numbers of its sinks, as the configuration lists them.
    pub fn sinks(&self) -> &[u8]
        ensures { result.now ≡ self.now.sinks }
    {
        self.sinks.as_slice()
    }

    /// What is said of an issue, with `{$sources}` and `{$sinks}` as they stand.
    pub fn message(&self) -> &Text
        ensures { result.now ≡ self.now.message }
    {
        &self.message
    }
}
