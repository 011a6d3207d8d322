// The models that tests compile.
use std::alloc::{AllocError, Global};

/// One Inport wired to one Outport.
pub const ONE_WIRE: &[u8] = b"Model {
  Name \"one\"
  System {
    Name \"one\"
    Block {
      BlockType Inport
      Name \"In1\"
      Port \"1\"
      OutDataTypeStr \"int32\"
    }
    Block {
      BlockType Outport
      Name \"Out1\"
      Port \"1\"
    }
    Line {
      SrcBlock \"In1\"
      SrcPort 1
      DstBlock \"Out1\"
      DstPort 1
    }
  }
}
";

/// The same with a Unit Delay in the wire.
pub const ONE_DELAY: &[u8] = b"Model {
System {
Block {
BlockType Inport
Name \"In1\"
Port \"1\"
OutDataTypeStr \"int32\"
}
Block {
BlockType UnitDelay
Name \"D\"
InitialCondition \"7\"
}
Block {
BlockType Outport
Name \"Out1\"
Port \"1\"
}
Line {
SrcBlock \"In1\"
SrcPort 1
DstBlock \"D\"
DstPort 1
}
Line {
SrcBlock \"D\"
SrcPort 1
DstBlock \"Out1\"
DstPort 1
}
}
}
";

/// The first model with a Gain in the place of its Outport.
pub const GAIN: &[u8] = b"Model {
  Name \"one\"
  System {
    Name \"one\"
    Block {
      BlockType Inport
      Name \"In1\"
      Port \"1\"
      OutDataTypeStr \"int32\"
    }
    Block {
      BlockType Gain
      Name \"Out1\"
      Port \"1\"
    }
    Line {
      SrcBlock \"In1\"
      SrcPort 1
      DstBlock \"Out1\"
      DstPort 1
    }
  }
}
";

/// The first model with a Scope in the place of its Outport.
pub const SCOPE: &[u8] = b"Model {
  Name \"one\"
  System {
    Name \"one\"
    Block {
      BlockType Inport
      Name \"In1\"
      Port \"1\"
      OutDataTypeStr \"int32\"
    }
    Block {
      BlockType Scope
      Name \"Out1\"
      Port \"1\"
    }
    Line {
      SrcBlock \"In1\"
      SrcPort 1
      DstBlock \"Out1\"
      DstPort 1
    }
  }
}
";

/// The first model without its last line.
pub const UNCLOSED: &[u8] = b"Model {
  Name \"one\"
  System {
    Name \"one\"
    Block {
      BlockType Inport
      Name \"In1\"
      Port \"1\"
      OutDataTypeStr \"int32\"
    }
    Block {
      BlockType Outport
      Name \"Out1\"
      Port \"1\"
    }
    Line {
      SrcBlock \"In1\"
      SrcPort 1
      DstBlock \"Out1\"
      DstPort 1
    }
  }
";

/// The first model with a Branch in the place of the Line's own end.
pub const BRANCHED: &[u8] = b"Model {
  System {
    Block {
      BlockType Inport
      Name \"In1\"
      OutDataTypeStr \"int32\"
    }
    Block {
      BlockType Outport
      Name \"Out1\"
    }
    Line {
      SrcBlock \"In1\"
      SrcPort 1
      Branch {
        DstBlock \"Out1\"
        DstPort 1
      }
    }
  }
}
";

/// The first model with the type of its Inport among its defaults, by its numbers.
pub const BY_DEFAULTS: &[u8] = b"Model {
  BlockParameterDefaults {
    Block {
      BlockType Inport
      OutDataTypeStr \"fixdt(1,32,0)\"
    }
  }
  System {
    Block {
      BlockType Inport
      Name \"In1\"
    }
    Block {
      BlockType Outport
      Name \"Out1\"
    }
    Line {
      SrcBlock \"In1\"
      SrcPort 1
      DstBlock \"Out1\"
      DstPort 1
    }
  }
}
";

/// The first model with sections and parameters that are passed over.
pub const SURROUNDED: &[u8] = b"Stateflow {
  machine {
  }
}
Model {
  Version 7.8
  GraphicalInterface {
    NumRootInports 1
  }
  System {
    Location [480, 85, 980, 386]
    Annotation {
      Text \"a wire\"
    }
    Block {
      BlockType Inport
      Name \"In1\"
      OutDataTypeStr \"int32\"
      Position [25, 33, 55, 47]
    }
    Block {
      BlockType Outport
      Name \"Out1\"
      PortProperties {
        Port 2
      }
    }
    Line {
      SrcBlock \"In1\"
      SrcPort 1
      Points [0, 0]
      DstBlock \"Out1\"
      DstPort 1
    }
  }
  System {
  }
}
";

/// So many sections, each inside the one before, and none of them closed.
pub fn nested(alloc: Global, count: u32) -> Result<Vec<u8>, AllocError> {
    let mut text = Vec::new(alloc);
    for _ in 0..count {
        text.extend_from_slice(b"a {\n")?;
    }
    Ok(text)
}

fn push_line(
    alloc: Global,
    text: &mut Vec<u8>,
    source: &str,
    target: &str,
) -> Result<(), AllocError> {
    let line = format!(in alloc;
        "Line {{\nSrcBlock \"{source}\"\nSrcPort 1\nDstBlock \"{target}\"\nDstPort 1\n}}\n"
    )?;
    text.extend_from_slice(line.as_bytes())
}

fn push_delay(alloc: Global, text: &mut Vec<u8>, name: &str) -> Result<(), AllocError> {
    let block = format!(in alloc; "Block {{\nBlockType UnitDelay\nName \"{name}\"\n}}\n")?;
    text.extend_from_slice(block.as_bytes())
}

/// So many Inports, wired to as many Outports in the opposite order.
pub fn crossed_ports(alloc: Global, count: u32) -> Result<Vec<u8>, AllocError> {
    let mut text = b"Model {\nSystem {\n".to_vec(alloc)?;
    for k in 0..count {
        let port = k + 1;
        let block = format!(in alloc;
            "Block {{
BlockType Inport
Name \"i{port}\"
Port \"{port}\"
OutDataTypeStr \"int32\"
}}
Block {{
BlockType Outport
Name \"o{port}\"
Port \"{port}\"
}}
"
        )?;
        text.extend_from_slice(block.as_bytes())?;
    }
    for k in 0..count {
        let source = format!(in alloc; "i{}", k + 1)?;
        let target = format!(in alloc; "o{}", count - k)?;
        push_line(alloc, &mut text, source.as_str(), target.as_str())?;
    }
    text.extend_from_slice(b"}\n}\n")?;
    Ok(text)
}

/// An Inport, so many Unit Delays one after another, and an Outport, of which the later are first in the file.
pub fn backward_chain(alloc: Global, count: u32) -> Result<Vec<u8>, AllocError> {
    let mut text =
        b"Model {\nSystem {\nBlock {\nBlockType Outport\nName \"o\"\nPort \"1\"\n}\n".to_vec(
            alloc,
        )?;
    for k in 0..count {
        let name = format!(in alloc; "d{}", count - k)?;
        push_delay(alloc, &mut text, name.as_str())?;
    }
    text.extend_from_slice(
        b"Block {\nBlockType Inport\nName \"d0\"\nPort \"1\"\nOutDataTypeStr \"int32\"\n}\n",
    )?;
    for k in 0..count {
        let source = format!(in alloc; "d{k}")?;
        let target = format!(in alloc; "d{}", k + 1)?;
        push_line(alloc, &mut text, source.as_str(), target.as_str())?;
    }
    let last = format!(in alloc; "d{count}")?;
    push_line(alloc, &mut text, last.as_str(), "o")?;
    text.extend_from_slice(b"}\n}\n")?;
    Ok(text)
}

/// So many Grounds.
pub fn grounds(alloc: Global, count: u32) -> Result<Vec<u8>, AllocError> {
    let mut text = b"Model {\nSystem {\n".to_vec(alloc)?;
    for k in 0..count {
        let block = format!(in alloc; "Block {{\nBlockType Ground\nName \"g{k}\"\n}}\n")?;
        text.extend_from_slice(block.as_bytes())?;
    }
    text.extend_from_slice(b"}\n}\n")?;
    Ok(text)
}
