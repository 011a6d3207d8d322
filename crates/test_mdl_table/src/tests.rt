mod blocks;
mod controls;
mod depths;
mod lines;
mod names;
mod order;
mod periods;
mod rows;
mod steps;
mod systems;

use base_refusals::refusal_text;
use diagram_meaning::{BuildFault, Tree};
use mdl_reader::read_mdl;
use mdl_table::build;
use std::alloc::Global;
use std::test::Fail;
use test_models::model_of;

/// The text of a refusal without its end, or that memory ran out.
fn told_of_fault(alloc: Global, fault: &BuildFault) -> Result<Vec<u8>, Fail> {
    match fault {
        BuildFault::Refused(refusal) => {
            let mut text = refusal_text(alloc, refusal)?;
            text.pop();
            Ok(text)
        }
        BuildFault::Memory => Err(Fail::from("memory")),
    }
}

/// What building a file answers: `accepted`, or the text of its refusal without its end.
fn answer(alloc: Global, text: &str) -> Result<Vec<u8>, Fail> {
    let file = read_mdl(alloc, text.as_bytes())?;
    match build(alloc, &file) {
        Ok(_) => Ok(b"accepted".to_vec(alloc)?),
        Err(fault) => told_of_fault(alloc, &fault),
    }
}

/// The tree of a file that is accepted.
fn tree_of_file(alloc: Global, text: &str) -> Result<Tree, Fail> {
    let file = read_mdl(alloc, text.as_bytes())?;
    match build(alloc, &file) {
        Ok(tree) => Ok(tree),
        Err(_) => Err(Fail::from("refused")),
    }
}

/// The tree of a model of these parts, which is accepted.
fn tree_of(alloc: Global, parts: &str) -> Result<Tree, Fail> {
    tree_of_file(alloc, &model_of(alloc, parts)?)
}
