//! The lines that list the submits to a pool. `kind` is `class` or `client`, and `name` is the name
//! of the class or client kind whose body has the submit.

ghost use Rattle.std.specs.Prelude.{◌≡◌, flat_map};
ghost use Rattle.support.specs.Pushed.{Pushes};
ghost use Rattle.report.specs.SubmitsTo as spec;

use crate::event_steps::pool_of;
use diagnostics::has_open_future;
use job_bodies::{Action, Class, Client, Plan};
use std::alloc::AllocError;

/// Appends a line for each submit to the pool with this index. The submits of the classes come
/// before those of the client kinds, each in plan order. The line says whether a future is open at
/// the submit. A future is open if a job was submitted before this submit, and the get of that job
/// comes after this submit.
pub(crate) fn push_submits(text: &mut String, plan: &Plan, pool: usize) -> Result<(), AllocError>
    ensures { Pushes result text.old text.new (spec.submits_text plan.now pool) }
{
    push_classes(text, plan, pool, plan.classes())?;
    push_clients(text, plan, pool, plan.clients())
}

fn push_classes(
    text: &mut String,
    plan: &Plan,
    pool: usize,
    mut classes: &[Class],
) -> Result<(), AllocError>
    ensures { Pushes result text.old text.new
        (flat_map (spec.class_lines plan.now pool) classes.now) }
{
    while let Some((class, rest)) = classes.split_first() {
        push_class(text, plan, pool, class)?;
        classes = rest;
    }
    Ok(())
}

fn push_class(text: &mut String, plan: &Plan, pool: usize, class: &Class) -> Result<(), AllocError>
    ensures { Pushes result text.old text.new (spec.class_lines plan.now pool class.now) }
{
    push_body(text, plan, pool, "class", &class.name, &class.body)
}

fn push_clients(
    text: &mut String,
    plan: &Plan,
    pool: usize,
    mut clients: &[Client],
) -> Result<(), AllocError>
    ensures { Pushes result text.old text.new
        (flat_map (spec.client_lines plan.now pool) clients.now) }
{
    while let Some((client, rest)) = clients.split_first() {
        push_client(text, plan, pool, client)?;
        clients = rest;
    }
    Ok(())
}

fn push_client(
    text: &mut String,
    plan: &Plan,
    pool: usize,
    client: &Client,
) -> Result<(), AllocError>
    ensures { Pushes result text.old text.new (spec.client_lines plan.now pool client.now) }
{
    push_body(text, plan, pool, "client", &client.name, &client.body)
}

/// Appends a line for each submit of the body to the pool. `kind` is `class` or `client`, and
/// `name` is the name of the class or client kind with this body.
fn push_body(
    text: &mut String,
    plan: &Plan,
    pool: usize,
    kind: &str,
    name: &str,
    body: &[Action],
) -> Result<(), AllocError>
    ensures { Pushes result text.old text.new
        (spec.body_lines plan.now pool kind.now name.now body.now) }
{
    for (position, action) in body.iter().enumerate() {
        push_action(text, plan, pool, kind, name, body, position, *action)?;
    }
    Ok(())
}

/// Appends a line for the action at this position of the body, if the action submits a job to the
/// pool.
fn push_action(
    text: &mut String,
    plan: &Plan,
    pool: usize,
    kind: &str,
    name: &str,
    body: &[Action],
    position: usize,
    action: Action,
) -> Result<(), AllocError>
    ensures { Pushes result text.old text.new
        (spec.action_line plan.now pool kind.now name.now body.now (position, action)) }
{
    match action {
        Action::Submit(class) if pool_of(plan, class) == pool => {
            push_line(text, plan, kind, name, body, position, class)
        }
        _ => Ok(()),
    }
}

/// Appends the line for one submit of the body. `position` is the position of the submit in the
/// body, and `class` is the index of the submitted job's class.
fn push_line(
    text: &mut String,
    plan: &Plan,
    kind: &str,
    name: &str,
    body: &[Action],
    position: usize,
    class: usize,
) -> Result<(), AllocError>
    ensures { Pushes result text.old text.new
        (spec.submit_line plan.now kind.now name.now body.now position class) }
{
    let class = plan.class_name(class);
    let open = open_words(has_open_future(body, position));
    write!(text, "  {kind} {name} action {position}")?;
    writeln!(text, " submits {class}{open}")
}

fn open_words(is_open: bool) -> &'static str
    ensures { result.now ≡ spec.open_text is_open }
{
    if is_open {
        ": a future is open here"
    } else {
        ""
    }
}
