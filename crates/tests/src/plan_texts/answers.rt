//! The answer to the text of a plan, in one line.

use job_bodies::{Action, Plan, PlanFault};
use plan_text::read_plan;
use std::alloc::{AllocError, Global};

/// Returns the plan that the text describes, or the fault of the text, in one line.
pub fn answered(alloc: Global, text: &[u8]) -> Result<String, AllocError> {
    line_of(alloc, read_plan(alloc, text))
}

/// Formats the plan or the fault in one line.
pub fn line_of(alloc: Global, answer: Result<Plan, PlanFault>) -> Result<String, AllocError> {
    match answer {
        Ok(plan) => plan_line(alloc, &plan),
        Err(fault) => fault.to_string(alloc),
    }
}

fn plan_line(alloc: Global, plan: &Plan) -> Result<String, AllocError> {
    let mut line = String::from_str(alloc, "plan")?;
    for pool in plan.pools() {
        let beforehand = if pool.prestart { " prestarted" } else { "" };
        let ends = if pool.core_timeout {
            " core_timeout"
        } else {
            ""
        };
        let full = if pool.may_reject { " may_reject" } else { "" };
        let limit = if pool.unbounded { " unbounded" } else { "" };
        write!(
            line,
            "; pool {} {} {} {}{beforehand}{ends}{full}{limit}",
            pool.name, pool.core, pool.max, pool.queue
        )?;
    }
    for class in plan.classes() {
        write!(line, "; class {} in {}:", class.name, class.pool)?;
        write_body(&mut line, &class.body)?;
    }
    for client in plan.clients() {
        let repeats = if client.repeat { " repeating" } else { "" };
        write!(line, "; client {} {}{repeats}:", client.name, client.count)?;
        write_body(&mut line, &client.body)?;
    }
    Ok(line)
}

fn write_body(line: &mut String, body: &[Action]) -> Result<(), AllocError> {
    for action in body {
        match action {
            Action::Work(units) => write!(line, " work {units}")?,
            Action::Submit(class) => write!(line, " submit {class}")?,
            Action::Get(position) => write!(line, " get {position}")?,
        }
    }
    Ok(())
}
