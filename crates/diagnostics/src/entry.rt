//! The entries of a plan: its pools, its classes and its client kinds.

use crate::collector::FaultCollector;
use crate::diagnostic::{Diagnostic, NumberRange};
use job_bodies::{Part, PlanFault};
use plan_text::{Places, TextPlace};
use std::alloc::{AllocError, Global};
use toml::{Table, Value};

/// The beginning of a text.
pub(crate) const BEGINNING: TextPlace = TextPlace { line: 1, column: 1 };

/// The string that replaces a number if a size has no limit.
pub(crate) const UNBOUNDED: &str = "unbounded";

/// Returns the plan's key for entries of this kind, such as `pool` for the header `[[pool]]`. For
/// `Part::Text`, which is the whole text, returns `plan`. Messages use the result as the name of
/// the kind.
pub(crate) fn list_of(part: Part) -> &'static str {
    match part {
        Part::Text => "plan",
        Part::Pool => "pool",
        Part::Class => "class",
        Part::Client => "client",
    }
}

/// An entry of one of the plan's lists: a pool, a class or a client kind. With `Part::Text`, this is
/// the whole plan. `places` has the places of all entries, keys and values in the plan's text.
#[derive(Clone, Copy)]
pub(crate) struct PlacedEntry<'a> {
    pub(crate) part: Part,
    pub(crate) index: usize,
    pub(crate) table: &'a Table,
    pub(crate) places: &'a Places<'a>,
}

impl<'a> PlacedEntry<'a> {
    pub(crate) fn value(&self, key: &str) -> Option<&'a Value> {
        self.table.get(key)
    }

    /// Returns the string at the key. Returns `None` if the entry does not have the key, or if the
    /// value is not a string.
    pub(crate) fn text(&self, key: &str) -> Option<&'a str> {
        match self.table.get(key) {
            Some(value) => value.as_str(),
            None => None,
        }
    }

    /// Returns the integer at the key. Returns `None` if the entry does not have the key, or if the
    /// value is not an integer.
    pub(crate) fn number(&self, key: &str) -> Option<i64> {
        match self.table.get(key) {
            Some(value) => value.as_integer(),
            None => None,
        }
    }

    /// Returns whether the value at the key is the string `unbounded`.
    pub(crate) fn is_unbounded(&self, key: &str) -> bool {
        self.text(key) == Some(UNBOUNDED)
    }

    /// Returns whether the value at the key is `true`.
    pub(crate) fn is_set(&self, key: &str) -> bool {
        match self.table.get(key) {
            Some(value) => value.as_bool().unwrap_or(false),
            None => false,
        }
    }

    /// Returns the two words with which messages name the entry: its kind and its name, such as
    /// `pool` and `db`. If the entry has no name, returns `this` and the kind.
    fn kind_and_name(&self) -> (&'static str, &'a str) {
        let list = list_of(self.part);
        match self.text("name") {
            Some(name) => (list, name),
            None => ("this", list),
        }
    }

    pub(crate) fn place(&self) -> TextPlace {
        match self.places.entry(list_of(self.part), self.index) {
            Some(place) => place,
            None => self.places.top(list_of(self.part)).unwrap_or(BEGINNING),
        }
    }

    pub(crate) fn key_place(&self, key: &str) -> TextPlace {
        match self.places.key(list_of(self.part), self.index, key) {
            Some(place) => place,
            None => self.place(),
        }
    }

    pub(crate) fn value_place(&self, key: &str) -> TextPlace {
        match self.places.value(list_of(self.part), self.index, key) {
            Some(place) => place,
            None => self.place(),
        }
    }

    pub(crate) fn action_place(&self, action: usize) -> TextPlace {
        let list = list_of(self.part);
        match self.places.element(list, self.index, "body", action) {
            Some(place) => place,
            None => self.value_place("body"),
        }
    }

    /// Reports a fault of the entry. `number` is the number of the fault, and `place` is the place
    /// of the fault. The message begins with the kind and name of the entry, as in `pool db: `, and
    /// continues with `words`. If `words` is an error, returns this error.
    pub(crate) fn report(
        &self,
        collector: &mut FaultCollector,
        number: u8,
        place: TextPlace,
        words: Result<String, AllocError>,
    ) -> Result<(), AllocError> {
        self.report_with_range(collector, number, place, words, None)
    }

    /// Reports a fault of the entry. `number` is the number of the fault, and `place` is the place
    /// of the fault. The message begins with the kind and name of the entry, as in `pool db: `, and
    /// continues with `words`. If `words` is an error, returns this error. `range` is the valid
    /// range if the fault is a number that is out of range.
    pub(crate) fn report_with_range(
        &self,
        collector: &mut FaultCollector,
        number: u8,
        place: TextPlace,
        words: Result<String, AllocError>,
        range: Option<NumberRange>,
    ) -> Result<(), AllocError> {
        let what = self.with_name(collector.alloc, words)?;
        let fault = PlanFault::at_entry(self.part, self.index, number);
        collector.push(Diagnostic {
            fault,
            place,
            what,
            range,
        })
    }

    /// Returns `words` after the kind and name of the entry, as in `pool db: `.
    fn with_name(
        &self,
        alloc: Global,
        words: Result<String, AllocError>,
    ) -> Result<String, AllocError> {
        let (kind, name) = self.kind_and_name();
        let words = words?;
        format!(in alloc; "{kind} {name}: {words}")
    }

    /// Reports a fault of the action with the index `action`. `number` is the number of the fault,
    /// and `text` is the text of the action. The message begins, for example, with
    /// `class page, action 1 "get row": `, and continues with `words`. If `words` is an error,
    /// returns this error. `range` is the valid range if the fault is a number that is out of
    /// range.
    pub(crate) fn report_action(
        &self,
        collector: &mut FaultCollector,
        action: usize,
        number: u8,
        text: &str,
        words: Result<String, AllocError>,
        range: Option<NumberRange>,
    ) -> Result<(), AllocError> {
        let what = self.with_action(collector.alloc, action, text, words)?;
        let fault = PlanFault::at_action(self.part, self.index, action, number);
        collector.push(Diagnostic {
            fault,
            place: self.action_place(action),
            what,
            range,
        })
    }

    /// Returns `words` after the kind and name of the entry, and the index and text of an action,
    /// as in `class page, action 1 "get row": `.
    fn with_action(
        &self,
        alloc: Global,
        action: usize,
        text: &str,
        words: Result<String, AllocError>,
    ) -> Result<String, AllocError> {
        let (kind, name) = self.kind_and_name();
        let words = words?;
        format!(in alloc; "{kind} {name}, action {action} \"{text}\": {words}")
    }
}

/// Reports a fault at this key at the top level. If the text does not have the key, the place of
/// the fault is the beginning of the text. `words` is the message. If it is an error, returns this
/// error.
pub(crate) fn report_at(
    collector: &mut FaultCollector,
    fault: PlanFault,
    key: &str,
    places: &Places<'_>,
    words: Result<String, AllocError>,
) -> Result<(), AllocError> {
    let what = words?;
    let place = places.top(key).unwrap_or(BEGINNING);
    collector.push(Diagnostic {
        fault,
        place,
        what,
        range: None,
    })
}
