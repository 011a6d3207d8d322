// Whole models that tests of several crates read.

/// A model as it is saved: an Inport of period 0.2, a Gain of 2.5 and an Outport, at a step of 0.1.
pub const SAVED: &[u8] = b"# a model as it is saved
Model {
  Name\t\t\t  \"plant\"
  Version\t\t  7.8
  GraphicalInterface {
    NumRootInports\t    1
    Inport {
      BusObject\t\t      \"\"
      Name\t\t      \"In1\"
    }
  }
  Array {
    Type\t\t    \"Handle\"
    Dimension\t\t    1
    Simulink.ConfigSet {
      $ObjectID\t\t      1
      Array {
\tType\t\t\t\"Handle\"
\tDimension\t\t1
\tSimulink.SolverCC {
\t  $ObjectID\t\t  2
\t  FixedStep\t\t  \"0.1\"
\t}
\tPropName\t\t\"Components\"
      }
    }
    PropName\t\t    \"ConfigurationSets\"
  }
  BlockParameterDefaults {
    Block {
      BlockType\t\t      Gain
      Gain\t\t      \"1\"
      OutDataTypeStr\t      \"fixdt(1,16,4)\"
      SaturateOnIntegerOverflow on
      SampleTime\t      \"-1\"
    }
  }
  System {
    Name\t\t    \"plant\"
    Location\t\t    [480, 85, 980, 386]
    Block {
      BlockType\t\t      Inport
      Name\t\t      \"In1\"
      SID\t\t      \"1\"
      Position\t\t      [25, 33, 55, 47]
      OutDataTypeStr\t      \"int8\"
      SampleTime\t      \"0.2\"
    }
    Block {
      BlockType\t\t      Gain
      Name\t\t      \"Long \"
      \"gain\"
      Gain\t\t      \"2.5\"
    }
    Block {
      BlockType\t\t      Outport
      Name\t\t      \"Out1\"
      Position\t\t      [205, 33, 235, 47]
    }
    Line {
      SrcBlock\t\t      \"In1\"
      SrcPort\t\t      1
      Points\t\t      [0, 0;
 10, 0]
      DstBlock\t\t      \"Long gain\"
      DstPort\t\t      1
    }
    Line {
      SrcBlock\t\t      \"Long gain\"
      SrcPort\t\t      1
      Branch {
\tDstBlock\t\t\"Out1\"
\tDstPort\t\t\t1
      }
      Branch {
\tPoints\t\t\t[5, 0]
      }
    }
    Annotation {
      Name\t\t      \"a note\"
    }
  }
}
";

/// The smallest model that is made by rule: seven times the input, and the sum of that with a delay of the sum.
pub const MADE: &str = "Model {
Name \"gen\"
System {
Block {
BlockType Inport
Name \"In1\"
Port \"1\"
OutDataTypeStr \"int32\"
}
Block {
BlockType SubSystem
Name \"G1\"
System {
Block {
BlockType Inport
Name \"a\"
Port \"1\"
}
Block {
BlockType Inport
Name \"b\"
Port \"2\"
}
Block {
BlockType Gain
Name \"g\"
Gain \"7\"
}
Block {
BlockType UnitDelay
Name \"d\"
InitialCondition \"86\"
}
Block {
BlockType Sum
Name \"s\"
Inputs \"++\"
}
Block {
BlockType Outport
Name \"p\"
Port \"1\"
}
Block {
BlockType Outport
Name \"q\"
Port \"2\"
}
Line {
SrcBlock \"a\"
SrcPort 1
DstBlock \"g\"
DstPort 1
}
Line {
SrcBlock \"g\"
SrcPort 1
DstBlock \"p\"
DstPort 1
}
Line {
SrcBlock \"b\"
SrcPort 1
DstBlock \"s\"
DstPort 1
}
Line {
SrcBlock \"d\"
SrcPort 1
DstBlock \"s\"
DstPort 2
}
Line {
SrcBlock \"s\"
SrcPort 1
DstBlock \"d\"
DstPort 1
}
Line {
SrcBlock \"s\"
SrcPort 1
DstBlock \"q\"
DstPort 1
}
}
}
Block {
BlockType Outport
Name \"Out1\"
Port \"1\"
}
Block {
BlockType Outport
Name \"Out2\"
Port \"2\"
}
Line {
SrcBlock \"In1\"
SrcPort 1
DstBlock \"G1\"
DstPort 1
}
Line {
SrcBlock \"G1\"
SrcPort 1
DstBlock \"G1\"
DstPort 2
}
Line {
SrcBlock \"G1\"
SrcPort 2
DstBlock \"Out1\"
DstPort 1
}
Line {
SrcBlock \"G1\"
SrcPort 1
DstBlock \"Out2\"
DstPort 1
}
}
}
";
