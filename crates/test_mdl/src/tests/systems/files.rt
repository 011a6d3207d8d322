use super::{is_told_of_file, model_text};
use std::alloc::Global;
use std::test::Fail;

// A file without a model, one whose model has no System, libraries, and a second model: in this order.
const FILES: &[(&str, &str)] = &[
    ("Model {\nSystem {\n}\n}\n", "read\n"),
    ("", "refused F3 NoModel line 0\n"),
    ("Stateflow {\n}\n", "refused F3 NoModel line 0\n"),
    ("\nModel {\n}\n", "refused F3 NoModel line 2\n"),
    (
        "\nModel {\n}\nLibrary {\n}\n",
        "refused F3 NoModel line 2\n",
    ),
    (
        "Model {\n}\nModel {\nSystem {\n}\n}\n",
        "refused F3 NoModel line 1\n",
    ),
    // What is in another section is no model and no library.
    (
        "Data {\nModel {\nSystem {\n}\n}\n}\n",
        "refused F3 NoModel line 0\n",
    ),
    (
        "Model {\nSystem {\n}\nModel {\n}\nLibrary {\n}\n}\n",
        "read\n",
    ),
    ("\nLibrary {\n}\n", "refused F4 TwoModels line 2 Library\n"),
    (
        "Model {\nSystem {\n}\n}\nModel {\n}\nLibrary {\n}\nLibrary {\n}\n",
        "refused F4 TwoModels line 7 Library\n",
    ),
    (
        "Model {\nSystem {\n}\n}\nModel {\n}\nModel {\n}\n",
        "refused F4 TwoModels line 5 Second\n",
    ),
];

/// A library after a model of 33 subsystems, each inside the one before, at line 203.
fn library_behind(alloc: Global) -> Result<String, Fail> {
    let mut file = model_text(alloc, "33 * SubSystem s {; 33 * }")?;
    file.push_str("Library {\n}\n")?;
    Ok(file)
}

#[test]
fn models_of_files(rt: HostRuntime) -> Result<(), Fail> {
    for &(file, expected) in FILES {
        is_told_of_file(rt.alloc(), file, expected)?;
    }
    // A library comes before subsystems that are too deep.
    let expected = "refused F4 TwoModels line 203 Library\n";
    is_told_of_file(rt.alloc(), &library_behind(rt.alloc())?, expected)
}
