//! What the words of a command line say.
ghost use Rattle.std.specs.Prelude.{◌≡◌};
ghost use Rattle.chart_command.specs.Forms.{form_of};

/// What a user asks for.
#[derive(Drop, Debug)]
pub enum Asked<'a> {
    /// A picture.
    Picture(LockchartArgs<'a>),
    /// The help or the version, which is this text.
    Help(String),
}

/// What the words say of a picture.
#[derive(Clone, Copy, Debug, PartialEq, Eq)]
pub struct LockchartArgs<'a> {
    /// Turns of the run at most, from 1 to 1,000,000.
    pub turns: u32,
    /// Chains of each sort, from 1 to 64.
    pub chains: u32,
    /// The first row that is drawn: the state behind so many turns.
    pub from: u32,
    /// The last row that is drawn, not before the first; at most 1,000,000.
    pub to: u32,
    pub title: Option<&'a str>,
    pub form: Form,
}

/// What a picture is written as.
#[derive(Clone, Copy, Debug, PartialEq, Eq)]
pub enum Form {
    Svg,
    Html,
    Trace,
    Text,
    Json,
}

impl Form {
    // The form that a word names.
    pub(crate) fn named(word: &str) -> Option<Form>
        ensures { result ≡ form_of word.now }
    {
        match word {
            "svg" => Some(Form::Svg),
            "html" => Some(Form::Html),
            "trace" => Some(Form::Trace),
            "text" => Some(Form::Text),
            "json" => Some(Form::Json),
            _ => None,
        }
    }
}
