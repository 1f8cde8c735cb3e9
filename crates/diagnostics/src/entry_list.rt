//! The entries of a list, and the message for a name that no entry has.

use crate::entry::{PlacedEntry, list_of};
use crate::suggestions::{comma_list, suggestion};
use job_bodies::{Part, is_valid_name};
use std::alloc::{AllocError, Global};

/// The entries of a list, and their names. Entries that are not tables are left out.
#[derive(Drop)]
pub(crate) struct EntryList<'a> {
    /// The kind of the entries.
    pub(crate) part: Part,
    pub(crate) entries: Vec<PlacedEntry<'a>>,
    names: Vec<&'a str>,
    /// Whether `names` certainly has all names of the list. Names may be missing if the list is not
    /// an array, or if an entry is not a table or has no valid name. They may also be missing if
    /// the plan has an unknown key at the top level, such as `pools`.
    pub(crate) is_complete: bool,
}

impl<'a> EntryList<'a> {
    /// Returns a list without entries.
    pub(crate) fn new(alloc: Global, part: Part, is_complete: bool) -> EntryList<'a> {
        EntryList {
            part,
            entries: Vec::new(alloc),
            names: Vec::new(alloc),
            is_complete,
        }
    }

    /// Appends an entry, and its name if it has one.
    pub(crate) fn push(&mut self, entry: PlacedEntry<'a>) -> Result<(), AllocError> {
        self.entries.push(entry)?;
        match entry.text("name") {
            Some(name) => self.push_name(name),
            None => {
                self.is_complete = false;
                Ok(())
            }
        }
    }

    fn push_name(&mut self, name: &'a str) -> Result<(), AllocError> {
        self.is_complete = self.is_complete && is_valid_name(name);
        self.names.push(name)?;
        Ok(())
    }

    pub(crate) fn contains(&self, name: &str) -> bool {
        self.names.contains(&name)
    }

    /// Returns the message for a name that no entry has. If `self.names` has all names of the list,
    /// the message suggests what to write instead.
    pub(crate) fn unknown(&self, alloc: Global, name: &str) -> Result<String, AllocError> {
        let list = list_of(self.part);
        let right = self.unknown_name_hint(alloc, name)?;
        format!(in alloc; "unknown {list} {name}{right}")
    }

    /// Returns the last part of the message for a name that no entry has, such as `; did you mean
    /// rows?`. Returns an empty text if `self.names` may lack some names of the list.
    fn unknown_name_hint(&self, alloc: Global, name: &str) -> Result<String, AllocError> {
        if !self.is_complete {
            return String::from_str(alloc, "");
        }
        suggestion(alloc, name, &self.names, self.listed(alloc))
    }

    /// Returns the end of a message. The end is a list of the names. If there are none, it says
    /// what to add.
    fn listed(&self, alloc: Global) -> Result<String, AllocError> {
        let plural = plural_of(self.part);
        if self.names.is_empty() {
            let list = list_of(self.part);
            return format!(in alloc; "; the plan has no {plural}: add a [[{list}]] with this name");
        }
        let start = format!(in alloc; "; the {plural} are")?;
        comma_list(alloc, &start, &self.names)
    }
}

fn plural_of(part: Part) -> &'static str {
    match part {
        Part::Text => "plans",
        Part::Pool => "pools",
        Part::Class => "classes",
        Part::Client => "clients",
    }
}
