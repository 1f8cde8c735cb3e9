//! Parsing of bodies, action by action. A *slot* is a name for a submitted job:
//! `submit CLASS as SLOT` fills the slot, and `get SLOT` gets the job and empties the slot. The
//! parsers replace each class name by the index of the class. A parsed get has the position of the
//! submit that filled the slot, instead of the slot.

ghost use Rattle.std.specs.Prelude.{◌≡◌, List, ℕ, map, OnOk, Some};
ghost use Rattle.support.specs.Reading as each;
ghost use Rattle.support.specs.Results.{Gives};
ghost use Rattle.job_bodies.specs.Checks.{at_action};
ghost use Rattle.plan_text.specs.Bodies as spec;
ghost use Rattle.plan_text.specs.Checks.{place_of};
ghost use Rattle.plan_text.specs.ParsedActions.{parse_action, parsed_action_view};
ghost use Rattle.plan_text.specs.Slots.{position_in, filled_by};

use crate::entries::{ClassEntry, ClientEntry};
use crate::fault::TextError;
use crate::names::Names;
use crate::parsed_action::{ParsedAction, parse_action};
use crate::slots::Slots;
use job_bodies::{Action, Class, Client, Part, PlanFault};
use std::alloc::Global;
use support::number::{BAD_ACTION, NO_SUCH_CLASS, SLOT_EMPTY, SLOT_OPEN};
use support::{ReadError, read_each};

/// The position of an action in a plan. `part` says whether the body is that of a class or of a
/// client kind. `index` is the number of this class or client kind, and `action` is the index of
/// the action in the body.
#[derive(Clone, Copy)]
struct ActionPlace {
    part: Part,
    index: usize,
    action: usize,
}

impl ActionPlace {
    fn refuses(self, number: u8) -> TextError
        ensures { result ≡ ReadError.Fault (at_action self.part self.index self.action number) }
    {
        ReadError::Fault(PlanFault::at_action(self.part, self.index, self.action, number))
    }
}

fn class_named(classes: &Names, place: ActionPlace, name: &str) -> Result<usize, TextError>
    ensures { Gives (λ class. class) result
        (spec.class_named classes.now (at_action place.part place.index place.action) name.now) }
{
    classes
        .place(name)
        .ok_or_else(|| place.refuses(NO_SUCH_CLASS))
}

fn action_of<'a>(
    classes: &Names<'a>,
    slots: &mut Slots<'a>,
    place: ActionPlace,
    parsed_action: ParsedAction<'a>,
) -> Result<Action, TextError>
    ensures action { Gives (λ action. action) result
        (spec.action_of classes.now (position_in slots.old)
        (at_action place.part place.index place.action) (parsed_action_view parsed_action.entry)) }
    ensures slots { OnOk result
        ((slot : List ℕ)
        → position_in slots.new slot
        ≡ filled_by slot place.action (position_in slots.old slot)
        (Some (parsed_action_view parsed_action.entry))) }
{
    match parsed_action {
        ParsedAction::Work(units) => Ok(Action::Work(units)),
        ParsedAction::Submit(class) => {
            let class = class_named(classes, place, class)?;
            Ok(Action::Submit(class))
        }
        ParsedAction::SubmitAs(class, slot) => {
            let class = class_named(classes, place, class)?;
            if slots.filled(slot).is_some() {
                return Err(place.refuses(SLOT_OPEN));
            }
            slots.set_filled(slot, place.action)?;
            Ok(Action::Submit(class))
        }
        ParsedAction::Get(slot) => {
            let Some(submit) = slots.filled(slot) else {
                return Err(place.refuses(SLOT_EMPTY));
            };
            slots.set_empty(slot);
            Ok(Action::Get(submit))
        }
    }
}

#[tactic(auto, unfolding(crate::specs::Bodies::action_at))]
fn action_at<'a>(
    classes: &Names<'a>,
    slots: &mut Slots<'a>,
    place: ActionPlace,
    text: &'a str,
) -> Result<Action, TextError>
    ensures action { Gives (λ action. action) result
        (spec.action_at classes.now (position_in slots.old)
        (at_action place.part place.index place.action) text.now) }
    ensures slots { OnOk result
        ((slot : List ℕ)
        → position_in slots.new slot
        ≡ filled_by slot place.action (position_in slots.old slot) (parse_action text.now)) }
{
    match parse_action(text) {
        Some(parsed_action) => action_of(classes, slots, place, parsed_action),
        None => Err(place.refuses(BAD_ACTION)),
    }
}

fn body_of<'a>(
    alloc: Global,
    classes: &Names<'a>,
    part: Part,
    index: usize,
    texts: &[&'a str],
) -> Result<Vec<Action>, TextError>
    ensures { Gives (λ body. body.items) result
        (spec.body_of classes.now part index (map (λ text. text.now) texts.now)) }
{
    let mut slots = Slots::new(alloc);
    let mut body = Vec::new(alloc);
    for (position, text) in texts.iter().enumerate() {
        let place = ActionPlace {
            part,
            index,
            action: position,
        };
        let action = action_at(classes, &mut slots, place, text)?;
        body.push(action)?;
    }
    Ok(body)
}

fn place_or_len(names: &Names, name: &str) -> usize
    ensures { result ≡ place_of names.now name.now }
{
    names.place(name).unwrap_or(names.len())
}

fn class_of<'a>(
    alloc: Global,
    pools: &Names<'a>,
    classes: &Names<'a>,
    index: usize,
    class: &ClassEntry<'a>,
) -> Result<Class, TextError>
    ensures { Gives (λ class. class) result (spec.class_of pools.now classes.now index class.now) }
{
    let body = body_of(alloc, classes, Part::Class, index, &class.body)?;
    let name = String::from_str(alloc, class.name)?;
    Ok(Class {
        name,
        pool: place_or_len(pools, class.pool),
        body,
    })
}

fn client_of<'a>(
    alloc: Global,
    classes: &Names<'a>,
    index: usize,
    client: &ClientEntry<'a>,
) -> Result<Client, TextError>
    ensures { Gives (λ client. client) result (spec.client_of classes.now index client.now) }
{
    let body = body_of(alloc, classes, Part::Client, index, &client.body)?;
    let name = String::from_str(alloc, client.name)?;
    Ok(Client {
        name,
        count: client.count,
        repeat: client.repeat,
        body,
    })
}

/// Parses the bodies of the class entries, and returns the classes in the same order. `pools` and
/// `names` are the names of the plan's pools and classes. Frees each entry after its class is
/// built.
///
/// Returns a fault for the first invalid action. An action is invalid in these cases:
///
/// - It is malformed.
/// - It submits a class that does not exist.
/// - It fills a slot that is already filled.
/// - It is a get of an empty slot.
pub fn classes_of<'p, 'd: 'p>(
    alloc: Global,
    pools: &Names<'p>,
    names: &Names<'p>,
    entries: Vec<ClassEntry<'d>>,
) -> Result<Vec<Class>, TextError>
    ensures { Gives (λ classes. classes.items) result
        (each.read_each (spec.class_of pools.now names.now) 0 entries.entry.items) }
{
    let mut classes = Vec::new(alloc);
    for entry in entries {
        let class = class_of(alloc, pools, names, classes.len(), &entry)?;
        classes.push(class)?;
    }
    Ok(classes)
}

/// Parses the bodies of the client entries, and returns the client kinds in the same order. `names`
/// are the names of the plan's classes. Returns a fault in the same cases as [`classes_of`].
pub fn clients_of<'a>(
    alloc: Global,
    names: &Names<'a>,
    entries: &[ClientEntry<'a>],
) -> Result<Vec<Client>, TextError>
    ensures { Gives (λ clients. clients.items) result
        (each.read_each (spec.client_of names.now) 0 entries.now) }
{
    read_each(
        alloc,
        entries,
        |index, entry| client_of(alloc, names, index, entry),
    )
}
