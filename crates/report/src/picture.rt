//! The picture of a plan, as a Graphviz graph. A pool is a box with its sizes and classes. The
//! sizes are the label of a node in the box. They are not the label of the box itself, because some
//! versions of Graphviz fail to route edges next to a box with a wide label. The clients are
//! outside of the boxes. An arrow represents submits of a class's jobs, and a dashed line
//! represents gets of its jobs. The dashed line is bold if at least one of these gets is counted. A
//! counted get can block a thread that other jobs need.
//!
//! The parameter `part` is the certificate's part for a pool, or `None` if there is no certificate.

ghost use Rattle.std.specs.Prelude.{◌≡◌, IfOk, option_map, string_bytes};
ghost use Rattle.support.specs.Pushed.{Pushes};
ghost use Rattle.report.specs.Picture as spec;

mod edges;

use crate::finding::PlanFinding;
use crate::picture::edges::{push_class_edges, push_client_edges};
use crate::places::{bounds_jobs, total_of};
use crate::safe_bound::{push_most, push_queue_size, push_threads};
use cert_text::PoolCert;
use job_bodies::{Class, Client, Plan, Pool};
use std::alloc::{AllocError, Global};
use weights::{Bound, Ranks};

/// Returns the picture of a plan as a Graphviz graph. If a certificate accepts the plan, the
/// picture also shows the known bounds of the queues, and counted gets are bold. A counted get can
/// block a thread that other jobs need.
///
/// # Errors
///
/// Returns [`AllocError`] if memory runs out.
pub fn picture_of(alloc: Global, plan: &Plan, finding: &PlanFinding) -> Result<String, AllocError>
    ensures { IfOk result
        (λ text. string_bytes text ≡ spec.picture_text plan.now finding.now) }
{
    match finding {
        PlanFinding::Safe(cert, _) => graph_of(alloc, plan, &cert.pools, Some(&cert.ranks)),
        PlanFinding::NotSafe(_, _) | PlanFinding::NotDecided(_) => graph_of(alloc, plan, &[], None),
    }
}

/// Returns the Graphviz graph of a plan.
///
/// - `parts` has the vectors of the certificate for each pool. It is empty if there is no
///   certificate.
/// - `ranks` is the part of the certificate that determines which gets are counted. It is `None` if
///   there is no certificate. Counted gets are bold, because they can block a thread that other
///   jobs need.
fn graph_of(
    alloc: Global,
    plan: &Plan,
    parts: &[PoolCert],
    ranks: Option<&Ranks>,
) -> Result<String, AllocError>
    ensures { IfOk result (λ text. string_bytes text
        ≡ spec.graph_text plan.now parts.now (option_map (λ ranks. ranks.now) ranks.entry)) }
{
    let mut text = String::new(alloc);
    push_head(&mut text)?;
    push_clients(&mut text, plan.clients())?;
    push_pools(&mut text, plan, parts)?;
    push_client_edges(&mut text, plan)?;
    push_class_edges(&mut text, plan, ranks)?;
    text.push_str("}\n")?;
    Ok(text)
}

fn push_head(text: &mut String) -> Result<(), AllocError>
    ensures { Pushes result text.old text.new spec.head }
{
    text.push_str(
        "digraph plan {\n  rankdir=LR\n  node [fontname=\"sans-serif\" fontsize=11]\n  edge [fontname=\"sans-serif\" fontsize=9]\n",
    )
}

// ---- clients

fn push_clients(text: &mut String, clients: &[Client]) -> Result<(), AllocError>
    ensures { Pushes result text.old text.new (spec.client_nodes clients.now) }
{
    for (number, client) in clients.iter().enumerate() {
        push_client(text, number, client)?;
    }
    Ok(())
}

fn push_client(text: &mut String, number: usize, client: &Client) -> Result<(), AllocError>
    ensures { Pushes result text.old text.new (spec.client_node (number, client.now)) }
{
    let count = client.count;
    let name = client.name.as_str();
    let rounds = rounds(client.repeat);
    writeln!(
        text,
        "  client{number} [shape=ellipse label=\"{count} {name}\\n{rounds}\"]"
    )
}

fn rounds(repeat: bool) -> &'static str
    ensures { result.now ≡ spec.rounds repeat }
{
    if repeat { "again and again" } else { "once" }
}

// ---- pools

fn push_pools(text: &mut String, plan: &Plan, parts: &[PoolCert]) -> Result<(), AllocError>
    ensures { Pushes result text.old text.new (spec.pool_boxes plan.now parts.now) }
{
    for (number, pool) in plan.pools().iter().enumerate() {
        push_pool(text, plan, parts, number, pool)?;
    }
    Ok(())
}

fn push_pool(
    text: &mut String,
    plan: &Plan,
    parts: &[PoolCert],
    number: usize,
    pool: &Pool,
) -> Result<(), AllocError>
    ensures { Pushes result text.old text.new
        (spec.pool_box plan.now parts.now (number, pool.now)) }
{
    push_box(text, plan, number, pool, parts.get(number))
}

/// Appends a box for the pool, with its classes.
#[tactic(auto, unfolding(crate::specs::Picture::box_text))]
fn push_box(
    text: &mut String,
    plan: &Plan,
    number: usize,
    pool: &Pool,
    part: Option<&PoolCert>,
) -> Result<(), AllocError>
    ensures { Pushes result text.old text.new
        (spec.box_text plan.now number pool.now (option_map (λ part. part.now) part.entry)) }
{
    push_start(text, number)?;
    push_label_node(text, plan, number, pool, part)?;
    push_nodes(text, plan.classes(), number)
}

/// Appends the first line of the pool's box.
fn push_start(text: &mut String, number: usize) -> Result<(), AllocError>
    ensures { Pushes result text.old text.new (spec.box_start number) }
{
    writeln!(text, "  subgraph cluster{number} {{")
}

/// Appends the node with the pool's name and sizes.
fn push_label_node(
    text: &mut String,
    plan: &Plan,
    number: usize,
    pool: &Pool,
    part: Option<&PoolCert>,
) -> Result<(), AllocError>
    ensures { Pushes result text.old text.new
        (spec.label_node number (spec.pool_label plan.now number pool.now (option_map (λ part. part.now) part.entry))) }
{
    write!(text, "    pool{number} [shape=plaintext label=\"")?;
    push_label(text, plan, number, pool, part)?;
    text.push_str("\"]\n")
}

/// Appends the nodes of the classes in the pool's box, and the end of the box.
fn push_nodes(text: &mut String, classes: &[Class], pool: usize) -> Result<(), AllocError>
    ensures { Pushes result text.old text.new (spec.box_nodes classes.now pool) }
{
    push_classes(text, classes, pool)?;
    text.push_str("  }\n")
}

/// Appends the name of the pool, its sizes, and the bound of its queue if this bound is known.
fn push_label(
    text: &mut String,
    plan: &Plan,
    number: usize,
    pool: &Pool,
    part: Option<&PoolCert>,
) -> Result<(), AllocError>
    ensures { Pushes result text.old text.new
        (spec.pool_label plan.now number pool.now (option_map (λ part. part.now) part.entry)) }
{
    let name = pool.name.as_str();
    write!(text, "{name}\\n")?;
    push_threads(text, pool)?;
    text.push_str(", queue ")?;
    push_queue_size(text, pool)?;
    push_bound(text, plan, number, pool, part)
}

/// Appends the bound of the pool's queue. `part` has the vectors of the certificate for this pool.
/// Appends nothing if `part` is `None`, which means that there is no certificate.
fn push_bound(
    text: &mut String,
    plan: &Plan,
    number: usize,
    pool: &Pool,
    part: Option<&PoolCert>,
) -> Result<(), AllocError>
    ensures { Pushes result text.old text.new
        (spec.bound_part plan.now number pool.now (option_map (λ part. part.now) part.entry)) }
{
    match part {
        Some(part) => push_bound_of(text, plan, number, pool, &part.bound),
        None => Ok(()),
    }
}

/// Appends the bound of the pool's queue. Appends nothing if the vector of the bound does not fit
/// the plan. If no bound limits the jobs in the queue, the capacity decides what is appended:
///
/// - If the capacity is limited, appends that the pool may reject jobs.
/// - If the capacity is unlimited, appends nothing.
fn push_bound_of(
    text: &mut String,
    plan: &Plan,
    number: usize,
    pool: &Pool,
    bound: &Option<Bound>,
) -> Result<(), AllocError>
    ensures { Pushes result text.old text.new
        (spec.bound_of plan.now number pool.now bound.now) }
{
    match bound {
        Some(bound) if bounds_jobs(plan, number, bound) => {
            push_total(text, bound, total_of(plan, bound.vector()))
        }
        Some(_) | None => text.push_str(no_bound_words(pool)),
    }
}

/// Returns the text that replaces the bound if no bound of the certificate limits the jobs in the
/// pool's queue. If the capacity of the pool's queue is limited, the text says that the pool may
/// reject jobs. If the capacity is unlimited, the text is empty, because the pool then rejects no
/// jobs.
fn no_bound_words(pool: &Pool) -> &'static str
    ensures { result.now ≡ spec.no_bound_part pool.now }
{
    if pool.unbounded { "" } else { "\\nmay reject" }
}

fn push_total(text: &mut String, bound: &Bound, total: Option<u64>) -> Result<(), AllocError>
    ensures { Pushes result text.old text.new (spec.most_part bound.now total) }
{
    match total {
        Some(total) => {
            text.push_str("\\n")?;
            push_most(text, bound, total)
        }
        None => Ok(()),
    }
}

/// Appends a node for each class of the pool.
fn push_classes(text: &mut String, classes: &[Class], pool: usize) -> Result<(), AllocError>
    ensures { Pushes result text.old text.new (spec.class_nodes classes.now pool) }
{
    for (number, class) in classes.iter().enumerate() {
        push_class(text, pool, number, class)?;
    }
    Ok(())
}

fn push_class(
    text: &mut String,
    pool: usize,
    number: usize,
    class: &Class,
) -> Result<(), AllocError>
    ensures { Pushes result text.old text.new (spec.class_node pool (number, class.now)) }
{
    if class.pool == pool {
        push_class_line(text, number, &class.name)
    } else {
        Ok(())
    }
}

fn push_class_line(text: &mut String, number: usize, name: &str) -> Result<(), AllocError>
    ensures { Pushes result text.old text.new (spec.class_line number name.now) }
{
    writeln!(text, "    class{number} [shape=box label=\"{name}\"]")
}
