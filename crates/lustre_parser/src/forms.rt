// How lists are written.
ghost use Rattle.std.specs.Prelude.{◌≡◌, option_map};
ghost use Rattle.lustre_grammar.specs.Parsing as parsing;
ghost use Rattle.lustre_parser.specs.Views.{form_of};

use lustre_tokens::Tokens;

/// How a list is written, by what it is a list of.
#[derive(Clone, Copy, Drop)]
pub(crate) enum Form {
    /// Inputs or outputs.
    Ports,
    /// The further names of a node.
    Others,
    /// The equations of a node.
    Equations,
    /// The names that an equation gives, after the first.
    Given,
    /// The arguments of a call.
    Arguments,
    /// The nodes of a file.
    Nodes,
}

impl Form {
    // What is before the first element, if anything is.
    fn first(self) -> Option<&'static [u8]>
        ensures { option_map (λ t. t.now) result ≡ (form_of self).first }
    {
        match self {
            Form::Others => Some(b"var"),
            Form::Given => Some(b","),
            Form::Ports | Form::Equations | Form::Arguments | Form::Nodes => None,
        }
    }

    // What is before each later element, if anything is.
    fn later(self) -> Option<&'static [u8]>
        ensures { option_map (λ t. t.now) result ≡ (form_of self).later }
    {
        match self {
            Form::Ports => Some(b";"),
            Form::Given | Form::Arguments => Some(b","),
            Form::Others | Form::Equations | Form::Nodes => None,
        }
    }

    /// What is before an element with so many before it, if anything is.
    #[tactic(auto, using(crate::proofs::Leads::later_lead))]
    pub(crate) fn lead(self, count: usize) -> Option<&'static [u8]>
        ensures { option_map (λ t. t.now) result ≡ parsing.lead_of (form_of self) count }
    {
        if count == 0 {
            self.first()
        } else {
            self.later()
        }
    }

    /// What is after each element, if anything is.
    pub(crate) fn after(self) -> Option<&'static [u8]>
        ensures { option_map (λ t. t.now) result ≡ (form_of self).after }
    {
        match self {
            Form::Others => Some(b";"),
            Form::Ports | Form::Equations | Form::Given | Form::Arguments | Form::Nodes => None,
        }
    }

    // What ends the list, if not the end of the text.
    fn close(self) -> Option<&'static [u8]>
        ensures { option_map (λ t. t.now) result ≡ (form_of self).close }
    {
        match self {
            Form::Ports | Form::Arguments => Some(b")"),
            Form::Others => Some(b"let"),
            Form::Equations => Some(b"tel"),
            Form::Given => Some(b"="),
            Form::Nodes => None,
        }
    }

    /// Whether the list ends here.
    pub(crate) fn is_closed(self, tokens: &Tokens) -> bool
        ensures { result ≡ parsing.is_closed (form_of self).close tokens.now }
    {
        match self.close() {
            Some(close) => tokens.starts_with(close),
            None => tokens.is_empty(),
        }
    }
}
