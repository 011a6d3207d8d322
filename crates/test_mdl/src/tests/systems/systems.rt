use mdl_params::Defaults;
use mdl_reader::read_mdl;
use mdl_systems::{PlacedBlock, SystemText, find_model, read_model};
use std::alloc::Global;
use std::fmt::Write;
use std::test::Fail;
use test_models::model_of;

/// A subsystem with an Inport, after it a Ground.
const NESTED: &str =
    "Block { / BlockType SubSystem / Name s / System { / Block { / BlockType Inport / Name x / } / } / } / Block { / BlockType Ground / Name g / }";

/// A Ground, a subsystem of an Inport and a subsystem of a Ground, and after it an empty subsystem.
const LINES: &str = "Block { / BlockType Ground / Name a / } / \
    Block { / BlockType SubSystem / Name s / System { / Block { / BlockType Inport / Name x / } / \
    Block { / BlockType SubSystem / Name t / System { / Block { / BlockType Ground / Name b / } / } / } / } / } / \
    Block { / BlockType SubSystem / Name u / System { / } / }";

/// The owner of each block, its name and its line.
fn blocks_told(alloc: Global, blocks: &[PlacedBlock]) -> Result<String, Fail> {
    let mut text = String::new(alloc);
    for placed in blocks {
        let name = str::from_utf8(placed.block.name)?;
        write!(
            &mut text,
            "{:?} {name} {}; ",
            placed.owner, placed.block.line
        )?;
    }
    Ok(text)
}

/// The row and the line of a system, its own blocks, and how many systems are directly inside it.
fn seen<'a>(system: &'a SystemText) -> (Option<usize>, u32, &'a [usize], usize) {
    (
        system.row,
        system.line,
        system.own.as_slice(),
        system.children.len(),
    )
}

/// What is seen of the root, of its first system and the one inside that, and of its second system.
fn systems_told(alloc: Global, root: &SystemText) -> Result<String, Fail> {
    let first = root.children.first().ok_or("s")?;
    let inner = first.children.first().ok_or("t")?;
    let last = root.children.get(1).ok_or("u")?;
    let (root, first, inner, last) = (seen(root), seen(first), seen(inner), seen(last));
    Ok(format!(in alloc; "{root:?} {first:?} {inner:?} {last:?}")?)
}

/// What is reported of the blocks or the systems of a model of these parts.
fn told_in(alloc: Global, parts: &str, what: &str) -> Result<String, Fail> {
    let text = model_of(alloc, parts)?;
    let file = read_mdl(alloc, text.as_bytes())?;
    let sections = find_model(alloc, &file)?;
    let defaults = Defaults::new(alloc, sections.model)?;
    let model = read_model(alloc, &defaults, sections.system)?;
    match what {
        "blocks" => blocks_told(alloc, model.blocks.as_slice()),
        _ => systems_told(alloc, &model.root),
    }
}

#[test]
fn blocks_and_systems(rt: HostRuntime) -> Result<(), Fail> {
    for &(parts, what, expected) in &[
        // The blocks in the order of the file, each before those inside it.
        (NESTED, "blocks", "None s 3; Some(0) x 7; None g 13; "),
        (
            LINES,
            "blocks",
            "None a 3; None s 7; Some(1) x 11; Some(1) t 15; Some(3) b 19; None u 27; ",
        ),
        // Each system has its row, its line and its own blocks, and is inside the one around it.
        (
            LINES,
            "systems",
            "(None, 2, [0, 1, 5], 2) (Some(1), 7, [2, 3], 1) (Some(3), 15, [4], 0) (Some(5), 27, [], 0)",
        ),
    ] {
        let told = told_in(rt.alloc(), parts, what)?;
        assert_eq!(rt; told.as_str(), expected);
    }
    Ok(())
}
