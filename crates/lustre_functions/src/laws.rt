ghost use Rattle.lustre_functions.specs.FromCLaws.{ExpressionsGiveTheSame};
ghost use Rattle.lustre_functions.specs.FunctionLaws.{NodesAreFunctions, NodesGiveTheSame};
ghost use Rattle.lustre_functions.specs.OneNumber.{ExpressionsGiveOne};

/// The Lustre of an expression of C gives what the expression gives, where the names of its leaves and calls have what
/// these give.
#[tactic(auto, using(crate::proofs::lemmas::FromC::expressions_give_the_same))]
pub fn expressions_give_the_same()
    ensures { ExpressionsGiveTheSame }
{}

/// Each of the eight nodes gives what the pure function of its name gives in C, whatever the arguments.
pub fn nodes_give_the_same()
    ensures { NodesGiveTheSame }
{}

/// The eight nodes round, clamp, wrap and convert by the rules of the eight functions, in all cases.
pub fn nodes_are_functions()
    ensures { NodesAreFunctions }
{}

/// An expression of C gives one number, from whatever count of steps.
#[tactic(auto, using(crate::proofs::lemmas::OneNumber::expressions_give_one))]
pub fn expressions_give_one()
    ensures { ExpressionsGiveOne }
{}
