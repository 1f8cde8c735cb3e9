//! The edges of a picture: an arrow for submits, and a dashed line for gets. The dashed line is
//! bold if at least one of these gets is counted. A counted get can block a thread that other jobs
//! need.

ghost use Rattle.std.specs.Prelude.{◌≡◌, ◌++◌, IsTrue, codes, option_map};
ghost use Rattle.std.specs.List.{enumerate_from, list_any};
ghost use Rattle.support.specs.Pushed.{Pushes};
ghost use Rattle.weights.specs.Ranks.{is_counted, ranks_fit};
ghost use Rattle.report.specs.Picture as spec;

use job_bodies::{Action, Class, Client, Plan};
use std::alloc::AllocError;
use weights::Ranks;

// ---- from clients

/// Appends the edges from each client kind to the classes of the jobs that its clients submit or
/// get.
pub(crate) fn push_client_edges(text: &mut String, plan: &Plan) -> Result<(), AllocError>
    ensures { Pushes result text.old text.new (spec.client_edges plan.now) }
{
    for (number, client) in plan.clients().iter().enumerate() {
        push_edges_from_client(text, plan, number, client)?;
    }
    Ok(())
}

fn push_edges_from_client(
    text: &mut String,
    plan: &Plan,
    number: usize,
    client: &Client,
) -> Result<(), AllocError>
    ensures { Pushes result text.old text.new
        (spec.edges_from_client plan.now (number, client.now)) }
{
    for class in 0..plan.classes().len() {
        push_client_edges_to(text, number, &client.body, class)?;
    }
    Ok(())
}

fn push_client_edges_to(
    text: &mut String,
    number: usize,
    body: &[Action],
    class: usize,
) -> Result<(), AllocError>
    ensures { Pushes result text.old text.new (spec.client_edges_to number body.now class) }
{
    push_submit_edge(text, "client", number, class, submit_count(body, class))?;
    push_get_edge(text, "client", number, class, has_get(body, class), false)
}

// ---- from classes

/// Appends the edges from each class to the classes of the jobs that its body submits or gets.
/// `ranks` determines which gets are counted. A counted get can block a thread that other jobs
/// need. If `ranks` is `None`, no get is counted.
pub(crate) fn push_class_edges(
    text: &mut String,
    plan: &Plan,
    ranks: Option<&Ranks>,
) -> Result<(), AllocError>
    ensures { Pushes result text.old text.new
        (spec.class_edges plan.now (option_map (λ ranks. ranks.now) ranks.entry)) }
{
    for (number, class) in plan.classes().iter().enumerate() {
        push_edges_from_class(text, plan, ranks, number, class)?;
    }
    Ok(())
}

fn push_edges_from_class(
    text: &mut String,
    plan: &Plan,
    ranks: Option<&Ranks>,
    number: usize,
    class: &Class,
) -> Result<(), AllocError>
    ensures { Pushes result text.old text.new (spec.edges_from_class
        plan.now (option_map (λ ranks. ranks.now) ranks.entry) (number, class.now)) }
{
    for target in 0..plan.classes().len() {
        push_class_edges_to(text, plan, ranks, number, &class.body, target)?;
    }
    Ok(())
}

fn push_class_edges_to(
    text: &mut String,
    plan: &Plan,
    ranks: Option<&Ranks>,
    number: usize,
    body: &[Action],
    class: usize,
) -> Result<(), AllocError>
    ensures { Pushes result text.old text.new (spec.class_edges_to
        plan.now (option_map (λ ranks. ranks.now) ranks.entry) number body.now class) }
{
    let counted = has_counted_get(plan, ranks, number, body, class);
    push_submit_edge(text, "class", number, class, submit_count(body, class))?;
    push_get_edge(text, "class", number, class, has_get(body, class), counted)
}

// ---- the actions of a body

fn submits_class(class: usize, action: Option<Action>) -> bool
    ensures { result ≡ spec.submits_class class action }
{
    match action {
        Some(Action::Submit(submitted)) => submitted == class,
        Some(Action::Work(_) | Action::Get(_)) | None => false,
    }
}

/// Returns the number of actions in the body that submit a job of the class.
fn submit_count(body: &[Action], class: usize) -> usize
    ensures { result ≡ spec.submit_count body.now class }
{
    body.iter()
        .filter(|action| submits_class(class, Some(**action)))
        .count()
}

/// Returns whether this action of the body is a get of a job of the class.
fn gets_class(body: &[Action], class: usize, action: Action) -> bool
    ensures { result ≡ spec.gets_class body.now class action }
{
    match action {
        Action::Get(submit) => submits_class(class, body.get(submit).copied()),
        Action::Work(_) | Action::Submit(_) => false,
    }
}

fn has_get(body: &[Action], class: usize) -> bool
    ensures { result ≡ spec.has_get body.now class }
{
    body.iter().any(|action| gets_class(body, class, *action))
}

/// Returns whether the body has a counted get of a job of the class with the index `class`. A
/// counted get can block a thread that other jobs need. `ranks` determines which gets are counted.
/// `number` is the index of the class that has the body. Returns `false` if `ranks` is `None` or
/// does not fit the plan.
fn has_counted_get(
    plan: &Plan,
    ranks: Option<&Ranks>,
    number: usize,
    body: &[Action],
    class: usize,
) -> bool
    ensures { result ≡ spec.has_counted_get
        plan.now (option_map (λ ranks. ranks.now) ranks.entry) number body.now class }
{
    match ranks {
        Some(ranks) => ranks.fits(plan) && counts_any(plan, ranks, number, body, class),
        None => false,
    }
}

fn counts_any(plan: &Plan, ranks: &Ranks, number: usize, body: &[Action], class: usize) -> bool
    requires { IsTrue (ranks_fit plan.now ranks.now) }
    ensures { result ≡ list_any
        (spec.is_counted_get plan.now ranks.now number body.now class) (enumerate_from 0 body.now) }
{
    body.iter().enumerate().any(|(position, action)| {
        gets_class(body, class, *action) && is_counted(plan, ranks, number, position)
    })
}

/// Returns whether the action at this position of the class's body is a counted get. A counted get
/// can block a thread that other jobs need. Returns `false` if there is no such action.
fn is_counted(plan: &Plan, ranks: &Ranks, class: usize, position: usize) -> bool
    requires { IsTrue (ranks_fit plan.now ranks.now) }
    ensures { result ≡ is_counted plan.now ranks.now class position }
{
    let classes = plan.classes();
    if class < classes.len() {
        let entry = &classes[class];
        if position < entry.body.len() {
            return ranks.is_counted(plan, class, position);
        }
    }
    false
}

// ---- lines

/// Appends one edge for `times` submits of jobs of a class. The edge ends at the node of this
/// class, whose index is `class`. The edge starts at the node whose name is `kind` followed by
/// `number`, such as `client0`. Appends nothing if `times` is 0.
fn push_submit_edge(
    text: &mut String,
    kind: &str,
    number: usize,
    class: usize,
    times: usize,
) -> Result<(), AllocError>
    ensures { Pushes result text.old text.new (spec.submit_edge kind.now number class times) }
{
    if times == 0 {
        return Ok(());
    }
    push_edge(text, kind, number, class)?;
    push_times(text, times)?;
    text.push('\n')
}

fn push_times(text: &mut String, times: usize) -> Result<(), AllocError>
    ensures { Pushes result text.old text.new (spec.times_label times) }
{
    if times == 1 {
        return Ok(());
    }
    write!(text, " [label=\"{times}\"]")
}

/// Appends one dashed edge for gets of jobs of a class. The edge starts at the node whose name is
/// `kind` followed by `number`, such as `client0`. It ends at the node of the class with the index
/// `class`. If `counted` is true, at least one of the gets can block a thread that other jobs need,
/// and the edge is bold. If `gets` is false, there are no gets, and the function appends nothing.
fn push_get_edge(
    text: &mut String,
    kind: &str,
    number: usize,
    class: usize,
    gets: bool,
    counted: bool,
) -> Result<(), AllocError>
    ensures { Pushes result text.old text.new
        (spec.get_edge kind.now number class gets counted) }
{
    if !gets {
        return Ok(());
    }
    push_edge(text, kind, number, class)?;
    push_style(text, style(counted))
}

fn push_style(text: &mut String, style: &str) -> Result<(), AllocError>
    ensures { Pushes result text.old text.new (spec.style_part style.now) }
{
    writeln!(text, " [style=\"{style}\" arrowhead=none constraint=false]")
}

fn style(counted: bool) -> &'static str
    ensures { result.now ≡ spec.style counted }
{
    if counted { "dashed,bold" } else { "dashed" }
}

fn push_edge(text: &mut String, kind: &str, number: usize, class: usize) -> Result<(), AllocError>
    ensures { Pushes result text.old text.new (spec.edge kind.now number class) }
{
    write!(text, "  {kind}{number} -> class{class}")
}
