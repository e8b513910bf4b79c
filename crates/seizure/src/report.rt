//! The report of a seizure.
ghost use Rattle.std.specs.Prelude.{◌≡◌};
ghost use Rattle.seizure.specs.Opened.{count_of_kind, count_of_nodes};

use crate::opened::{Opened, count_of_kind, count_of_nodes};
use std::marker::Model;

/// How many pages there are, and what was opened of them. It holds no key and no content.
#[derive(Drop)]
pub struct Report {
    pages: u64,
    opened: Vec<Opened>,
}

impl Model for Report {
    ghost use Rattle.seizure.specs.Report.{Seized};

    ghost Value = { Seized };

    ghost view = { λ r. record { pages = r.pages; opened = r.opened.items } };
}

impl Report {
    // The report of what was opened of so many pages.
    pub(crate) fn of(pages: u64, opened: Vec<Opened>) -> Report
        ensures { result ≡ record { pages = pages; opened = opened.items } }
    {
        Report { pages, opened }
    }

    /// How many pages there are.
    pub fn pages(&self) -> u64
        ensures { result ≡ self.now.pages }
    {
        self.pages
    }

    /// What was opened, in order, each once.
    pub fn opened(&self) -> &[Opened]
        ensures { result.now ≡ self.now.opened }
    {
        &self.opened
    }

    /// How many of them are of kind 2 or 3, as nodes are.
    pub fn nodes(&self) -> u64
        ensures { result ≡ count_of_nodes self.now.opened }
    {
        count_of_nodes(&self.opened)
    }

    /// How many of them are of kind 1, as data records are.
    pub fn blocks(&self) -> u64
        ensures { result ≡ count_of_kind 1 self.now.opened }
    {
        count_of_kind(&self.opened, 1)
    }
}
