//! What a query's plan tells of its outputs.

use crate::resolving::telling::push_error;
use crate::resolving::words::{list, next, text_or_none};
use crate::telling::push;
use pg_resolve::{Plan, plan_walk};
use pg_wire::{Sequence, Text};
use std::alloc::Global;

fn output(alloc: Global, words: &str) -> Option<Sequence<Text>> {
    if words == "-" {
        return None;
    }
    Some(Sequence::from_vec(list(alloc, words, '|')))
}

// The last nodes, as many as a word says.
fn taken(alloc: Global, nodes: &mut Vec<Plan>, count: &str) -> Option<Vec<Plan>> {
    let count = count.parse::<usize>().ok()?;
    let first = nodes.len().saturating_sub(count);
    Some(nodes.split_off(first).unwrap_or(Vec::new(alloc)))
}

// A node over those that it takes.
fn node(alloc: Global, nodes: &mut Vec<Plan>, line: &str) -> Plan {
    let mut fields = line;
    let fields = &mut fields;
    Plan {
        join_type: text_or_none(alloc, next(fields, '/')),
        parent_relation: text_or_none(alloc, next(fields, '/')),
        plans: taken(alloc, nodes, next(fields, '/')),
        output: output(alloc, next(fields, '/')),
    }
}

// The node of the last line.
fn plan(alloc: Global, lines: &str) -> Option<Plan> {
    let mut nodes = Vec::new(alloc);
    for line in lines.split(" ; ") {
        let node = node(alloc, &mut nodes, line);
        let _ = nodes.push(node);
    }
    nodes.pop()
}

fn push_marks(told: &mut String, marks: &[Option<bool>]) {
    for mark in marks {
        push(
            told,
            match mark {
                Some(true) => "t",
                Some(false) => "f",
                None => "-",
            },
        );
    }
}

/// Marks the outputs in front of the first semicolon by the plan behind it: its nodes, each behind those below it, as a join type, a parent
/// relation, how many nodes it takes of those in front of it, and its outputs. A minus stands for a field that it lacks.
pub fn walk(told: &mut String, alloc: Global, rest: &str) {
    let (outputs, lines) = rest.split_once(" ; ").unwrap_or((rest, ""));
    let Some(plan) = plan(alloc, lines) else {
        return push(told, "no plan");
    };
    let outputs: Vec<Text> = list(alloc, outputs, '|');
    let marks = plan_walk(alloc, &plan, &outputs);
    drop(plan);
    drop(outputs);
    match marks {
        Ok(marks) => push_marks(told, &marks),
        Err(error) => push_error(told, error),
    }
}
