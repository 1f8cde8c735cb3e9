//! Two graphs of a plan:
//!
//! - The graph of submits shows which classes a class submits. The nodes are the classes, and the
//!   successors of a class are the classes that it submits.
//! - The graph of waits shows what a job can wait for. The nodes are the classes and then the
//!   pools. The successors of a class are its pool and the classes of the jobs that it gets. If
//!   core threads of a pool may time out, the successors of the pool are the classes for whose jobs
//!   its last thread can wait at a get. Any other pool has no successors.

ghost use Rattle.std.specs.Prelude.{◌≡◌, ◌<◌, ◌++◌, [], OnOk, IfOk, length};
ghost use Rattle.std.specs.List.{enumerate_from, flat_map};
ghost use Rattle.job_bodies.specs.Plan.{class_at, pool_at};
ghost use Rattle.job_bodies.specs.WellFormed.{IsWellFormed};
ghost use Rattle.size_search.specs.Graph.{AreNodes, IsClosed};
ghost use Rattle.size_search.specs.JobGraphs as spec;

use crate::graph::Graph;
use job_bodies::{Action, Plan};
use std::alloc::{AllocError, Global};
use weights::submitted_class;

/// Appends the classes that the body submits, in order.
fn push_submits(nodes: &mut Vec<usize>, body: &[Action]) -> Result<(), AllocError>
    ensures { OnOk result (nodes.new.items ≡ nodes.old.items ++ spec.submits_of body.now) }
{
    for action in body {
        if let Action::Submit(class) = *action {
            nodes.push(class)?;
        }
    }
    Ok(())
}

/// Appends the classes whose jobs the body gets, in order.
fn push_gets(nodes: &mut Vec<usize>, body: &[Action]) -> Result<(), AllocError>
    ensures { OnOk result (nodes.new.items ≡ nodes.old.items ++ spec.gets_of body.now body.now) }
{
    for action in body {
        if let Action::Get(submit) = *action {
            nodes.push(submitted_class(body, submit))?;
        }
    }
    Ok(())
}

/// Returns the classes that clients submit directly. If `repeating` is `true`, only repeating
/// clients count.
pub(crate) fn client_submits(
    alloc: Global,
    plan: &Plan,
    repeating: bool,
) -> Result<Vec<usize>, AllocError>
    ensures { IfOk result (λ nodes. nodes.items ≡ spec.client_submits plan.now repeating) }
{
    let mut nodes = Vec::new(alloc);
    for client in plan.clients() {
        if client.repeat || !repeating {
            push_submits(&mut nodes, &client.body)?;
        }
    }
    Ok(nodes)
}

fn submits_of(alloc: Global, body: &[Action]) -> Result<Vec<usize>, AllocError>
    ensures { IfOk result (λ nodes. nodes.items ≡ spec.submits_of body.now) }
{
    let mut nodes = Vec::new(alloc);
    push_submits(&mut nodes, body)?;
    Ok(nodes)
}

/// Returns the graph of submits: the successors of a class are the classes that it submits.
pub(crate) fn submit_graph(alloc: Global, plan: &Plan) -> Result<Graph, AllocError>
    ensures graph { IfOk result (λ graph. graph ≡ spec.submit_graph plan.now) }
    ensures closed { IfOk result IsClosed }
    ensures well_formed { IsWellFormed plan.now }
{
    let mut graph = Graph::new(alloc);
    for class in plan.classes() {
        graph.push(submits_of(alloc, &class.body)?)?;
    }
    Ok(graph)
}

/// Returns the successors of a class in the graph of waits: the pool of the class, and the classes
/// whose jobs it gets.
fn class_waits(alloc: Global, plan: &Plan, number: usize) -> Result<Vec<usize>, AllocError>
    requires { number < length plan.now.classes }
    ensures { IfOk result
        (λ nodes. nodes.items ≡ spec.class_waits plan.now (class_at plan.now number)) }
{
    let class = &plan.classes()[number];
    let mut nodes = Vec::new(alloc);
    nodes.push(plan.classes().len() + class.pool)?;
    push_gets(&mut nodes, &class.body)?;
    Ok(nodes)
}

/// Returns the classes whose jobs the pool's marked classes get. `marks` says for each class
/// whether it is marked.
fn marked_gets(
    alloc: Global,
    plan: &Plan,
    marks: &[bool],
    pool: usize,
) -> Result<Vec<usize>, AllocError>
    requires { length marks.now ≡ length plan.now.classes }
    ensures { IfOk result
        (λ nodes. nodes.items ≡ flat_map (spec.marked_gets marks.now pool) (enumerate_from 0 plan.now.classes)) }
{
    let mut nodes = Vec::new(alloc);
    for number in 0..plan.classes().len() {
        let class = &plan.classes()[number];
        if class.pool == pool && marks[number] {
            push_gets(&mut nodes, &class.body)?;
        }
    }
    Ok(nodes)
}

/// Returns the successors of a pool in the graph of waits. If core threads of the pool may time
/// out, the successors are the classes whose jobs the pool's marked classes get. Otherwise there
/// are no successors. `marks` says for each class whether it is marked.
fn pool_waits(
    alloc: Global,
    plan: &Plan,
    marks: &[bool],
    number: usize,
) -> Result<Vec<usize>, AllocError>
    requires marks { length marks.now ≡ length plan.now.classes }
    requires number { number < length plan.now.pools }
    ensures { IfOk result
        (λ nodes. nodes.items ≡ spec.pool_waits plan.now marks.now number (pool_at plan.now number)) }
{
    let pool = &plan.pools()[number];
    if pool.core_timeout {
        marked_gets(alloc, plan, marks, number)
    } else {
        Ok(Vec::new(alloc))
    }
}

/// Appends a node for each class to the graph of waits (see [`wait_graph`]).
fn push_classes(alloc: Global, plan: &Plan, graph: &mut Graph) -> Result<(), AllocError>
    ensures nodes { OnOk result (graph.new ≡ graph.old ++ spec.class_nodes plan.now) }
    ensures well_formed { IsWellFormed plan.now }
{
    for number in 0..plan.classes().len() {
        graph.push(class_waits(alloc, plan, number)?)?;
    }
    Ok(())
}

/// Appends a node for each pool to the graph of waits (see [`wait_graph`]).
fn push_pools(
    alloc: Global,
    plan: &Plan,
    marks: &[bool],
    graph: &mut Graph,
) -> Result<(), AllocError>
    requires { length marks.now ≡ length plan.now.classes }
    ensures { OnOk result (graph.new ≡ graph.old ++ spec.pool_nodes plan.now marks.now) }
{
    for number in 0..plan.pools().len() {
        graph.push(pool_waits(alloc, plan, marks, number)?)?;
    }
    Ok(())
}

/// Returns the graph of waits, which shows what a job can wait for. `marks` says for each class
/// whether it is marked. The nodes of the graph are the classes and then the pools:
///
/// - The successors of a class are its pool and the classes whose jobs it gets.
/// - If core threads of a pool may time out, the successors of the pool are the classes whose jobs
///   the pool's marked classes get. Any other pool has no successors.
pub(crate) fn wait_graph(alloc: Global, plan: &Plan, marks: &[bool]) -> Result<Graph, AllocError>
    requires { length marks.now ≡ length plan.now.classes }
    ensures graph { IfOk result (λ graph. graph ≡ spec.wait_graph plan.now marks.now) }
    ensures closed { IfOk result IsClosed }
{
    let mut graph = Graph::new(alloc);
    push_classes(alloc, plan, &mut graph)?;
    push_pools(alloc, plan, marks, &mut graph)?;
    Ok(graph)
}
