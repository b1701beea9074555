//! Findings, each once.
ghost use Rattle.std.specs.Prelude.{◌≡◌, [], IfOk, OnOk};
ghost use Rattle.cx_finding.specs.Distinct.{same, with_finding};
ghost use Rattle.indexmap.specs.IndexSet.{insert_all};

use crate::key::{FindingKey, key_of};
use cx_base::{Finding, List, NoMemory};
use cx_table::NameKey;
use indexmap::IndexSet;
use std::alloc::Global;
use std::marker::Model;

/// Findings in order, each once: kinds, places and words tell two apart. Contracts see the list.
#[derive(Drop)]
pub struct Findings {
    alloc: Global,
    found: List<Finding>,
    // the key of each, in order
    keys: IndexSet<FindingKey, NameKey>,
}

impl Model for Findings {
    ghost use Rattle.std.specs.Prelude.{List};
    ghost use Rattle.std.specs.List.{AllZip};
    ghost use Rattle.cx_base.specs.declared.finding.Finding.{Finding};
    ghost use Rattle.cx_finding.specs.Shapes.Keys.{IsKeyOf};

    ghost Value = { List Finding };

    ghost view = { λ f. f.found };

    ghost invariant = { λ f. AllZip IsKeyOf f.found f.keys.keys };
}

impl Findings {
    /// No findings. Their keys are hashed under this key, which the sources give.
    pub fn new(alloc: Global, key: NameKey) -> Findings
        ensures { result ≡ [] }
    {
        Findings {
            alloc,
            found: List::new(alloc),
            keys: IndexSet::with_hasher(alloc, key),
        }
    }

    /// The findings, in order.
    pub fn as_slice(&self) -> &[Finding]
        ensures { result.now ≡ self.now }
    {
        self.found.as_slice()
    }

    /// The findings, as a list.
    pub fn into_list(self) -> List<Finding>
        ensures { result ≡ self }
    {
        self.found
    }

    /// The findings with one more, at the end unless it is there.
    pub fn with(self, finding: Finding) -> Result<Findings, NoMemory>
        ensures { IfOk result (λ f. f ≡ with_finding self finding) }
    {
        let Findings {
            alloc,
            mut found,
            mut keys,
        } = self;
        let key = key_of(alloc, &finding)?;
        if keys.insert(key)? {
            found.push(finding)?;
        }
        Ok(Findings { alloc, found, keys })
    }

    /// The findings with copies of others, each at the end unless it is there.
    pub fn with_all(self, findings: &[Finding]) -> Result<Findings, NoMemory>
        ensures { IfOk result (λ f. f ≡ insert_all same self findings.now) }
    {
        let mut all = self;
        for finding in findings {
            all = all.with(finding.copy()?)?;
        }
        Ok(all)
    }
}
