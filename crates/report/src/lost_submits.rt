//! Texts about the bodies that submit a job to a pool and never get this job.

ghost use Rattle.std.specs.Prelude.{◌≡◌, ◌++◌, IfOk, OnOk, flat_map, map, string_bytes};
ghost use Rattle.report.specs.LostSubmits as spec;

use job_bodies::{Action, Class, Client, Plan, has_get_of};
use std::alloc::{AllocError, Global};

/// Returns texts such as `client visitor submits append without a get`. Each text is about a body
/// and a class of the pool. It says that the body submits a job of this class and never gets the
/// job. The texts about bodies of client kinds come first, then those about bodies of classes, each
/// in plan order.
pub(crate) fn lost_texts(alloc: Global, plan: &Plan, pool: usize) -> Result<Vec<String>, AllocError>
    ensures { IfOk result
        (λ texts. map string_bytes texts.items ≡ spec.lost_texts plan.now pool) }
{
    let mut texts = Vec::new(alloc);
    push_clients(alloc, &mut texts, plan, pool, plan.clients())?;
    push_classes(alloc, &mut texts, plan, pool, plan.classes())?;
    Ok(texts)
}

fn push_clients(
    alloc: Global,
    texts: &mut Vec<String>,
    plan: &Plan,
    pool: usize,
    mut clients: &[Client],
) -> Result<(), AllocError>
    ensures { OnOk result
        (map string_bytes texts.new.items
        ≡ map string_bytes texts.old.items ++ flat_map (spec.lost_by_client plan.now pool) clients.entry.now) }
{
    while let Some((client, rest)) = clients.split_first() {
        push_client(alloc, texts, plan, pool, client)?;
        clients = rest;
    }
    Ok(())
}

fn push_client(
    alloc: Global,
    texts: &mut Vec<String>,
    plan: &Plan,
    pool: usize,
    client: &Client,
) -> Result<(), AllocError>
    ensures { OnOk result
        (map string_bytes texts.new.items
        ≡ map string_bytes texts.old.items ++ spec.lost_by_client plan.now pool client.now) }
{
    push_body(
        alloc,
        texts,
        plan,
        pool,
        "client",
        &client.name,
        &client.body,
    )
}

fn push_classes(
    alloc: Global,
    texts: &mut Vec<String>,
    plan: &Plan,
    pool: usize,
    mut classes: &[Class],
) -> Result<(), AllocError>
    ensures { OnOk result
        (map string_bytes texts.new.items
        ≡ map string_bytes texts.old.items ++ flat_map (spec.lost_by_class plan.now pool) classes.entry.now) }
{
    while let Some((class, rest)) = classes.split_first() {
        push_class(alloc, texts, plan, pool, class)?;
        classes = rest;
    }
    Ok(())
}

fn push_class(
    alloc: Global,
    texts: &mut Vec<String>,
    plan: &Plan,
    pool: usize,
    class: &Class,
) -> Result<(), AllocError>
    ensures { OnOk result
        (map string_bytes texts.new.items
        ≡ map string_bytes texts.old.items ++ spec.lost_by_class plan.now pool class.now) }
{
    push_body(alloc, texts, plan, pool, "class", &class.name, &class.body)
}

/// Appends texts about the body, at most one for each class of the pool. A class has a text if the
/// body submits a job of the class and never gets the job. `kind` is `client` or `class`, and
/// `name` is the name of the client kind or class with this body.
fn push_body(
    alloc: Global,
    texts: &mut Vec<String>,
    plan: &Plan,
    pool: usize,
    kind: &str,
    name: &str,
    body: &[Action],
) -> Result<(), AllocError>
    ensures { OnOk result
        (map string_bytes texts.new.items
        ≡ map string_bytes texts.old.items ++ spec.lost_by plan.now pool kind.now name.now body.now) }
{
    for (number, class) in plan.classes().iter().enumerate() {
        push_lost(alloc, texts, pool, kind, name, body, number, class)?;
    }
    Ok(())
}

/// Appends the text for one class if both of these hold:
///
/// - The class belongs to the pool.
/// - The body submits a job of the class and never gets this job.
///
/// Otherwise appends nothing.
#[tactic(auto, using(std::proofs::lemmas::List::map_push))]
fn push_lost(
    alloc: Global,
    texts: &mut Vec<String>,
    pool: usize,
    kind: &str,
    name: &str,
    body: &[Action],
    number: usize,
    class: &Class,
) -> Result<(), AllocError>
    ensures { OnOk result
        (map string_bytes texts.new.items
        ≡ map string_bytes texts.old.items ++ spec.lost_class pool kind.now name.now body.now (number, class.now)) }
{
    if class.pool != pool || !loses(body, number) {
        return Ok(());
    }
    texts.push(lost_words(alloc, kind, name, &class.name)?)?;
    Ok(())
}

fn lost_words(alloc: Global, kind: &str, name: &str, class: &str) -> Result<String, AllocError>
    ensures { IfOk result
        (λ words. string_bytes words ≡ spec.lost_words kind.now name.now class.now) }
{
    format!(in alloc; "{kind} {name} submits {class} without a get")
}

/// Returns whether the body submits a job of the class and never gets this job.
fn loses(body: &[Action], class: usize) -> bool
    ensures { result ≡ spec.loses body.now class }
{
    body.iter().enumerate().any(|(position, action)| loses_at(body, class, position, *action))
}

fn loses_at(body: &[Action], class: usize, position: usize, action: Action) -> bool
    ensures { result ≡ spec.loses_at body.now class (position, action) }
{
    match action {
        Action::Submit(submitted) => submitted == class && !has_get_of(body, position),
        Action::Work(_) | Action::Get(_) => false,
    }
}
