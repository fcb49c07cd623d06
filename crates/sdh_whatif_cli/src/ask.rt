//! What the words of the command line ask for.
ghost use Rattle.std.specs.Prelude.{◌≡◌, IfSome};
ghost use Rattle.sdh_shell.specs.Calls.{words_of};
ghost use Rattle.sdh_whatif_cli.specs.Words.{depth_named, kind_named, form_named, has_kind, with_kind_named, has_some, takes, begun};
ghost use Rattle.sdh_whatif_cli.specs.Words.{ask_kind, is_plain_form, ask_form, ask_word, begin_part, read_any, read_part, read_parts};
ghost use Rattle.sdh_whatif_cli.specs.Words.{read_word, read_words, is_whole, may_be_parted, finished, asked, IsPart};
ghost use Rattle.sdh_whatif_cli.specs.Words.{begin_own, with_own};

use sdh_plan::numeral_in;

/// The most failures that are taken together in a case.
#[derive(Clone, Copy, Debug)]
pub enum Depth {
    Single,
    Double,
    Triple,
}

/// A kind of failures.
#[derive(Clone, Copy, Debug)]
pub enum Kind {
    /// A fibre is degraded.
    Degraded,
    /// A fibre is cut.
    Fibres,
    /// A span is cut both ways.
    Spans,
    /// Both spans of a node are cut both ways.
    Nodes,
    /// A side has a manual switch.
    Manual,
    /// A side has a forced switch.
    Forced,
    /// Failures of the ring come together, as the user names them.
    Own,
}

/// The kinds that are named.
#[derive(Clone, Copy)]
pub struct Kinds {
    pub degraded: bool,
    pub fibres: bool,
    pub spans: bool,
    pub nodes: bool,
    pub manual: bool,
    pub forced: bool,
    pub own: bool,
}

/// The form in which cases are listed.
#[derive(Clone, Copy, Debug)]
pub enum Form {
    /// Records of a table.
    Table,
    /// Records of a table, after a record of the fields' names.
    Headed,
    /// Lines of JSON.
    Json,
    /// No cases, but the counts of circuits lost in each failure alone, kind by kind.
    Summary,
}

/// Which cases are listed, and how. They have at most `depth` failures, of these kinds; where no kind is named all are
/// taken. Of these cases part `part` of `parts` is listed, counted from 1.
#[derive(Clone, Copy)]
pub struct Ask {
    pub depth: Depth,
    pub kinds: Kinds,
    pub form: Form,
    pub part: u32,
    pub parts: u32,
}

/// What the next word is.
#[derive(Clone, Copy)]
pub enum Awaited {
    /// A kind, a form, `own` or `part`.
    Any,
    /// The number of the part.
    Part,
    /// The number of parts.
    Parts,
    /// The text of a failure of the user's own.
    Own,
}

/// What the words so far ask for.
#[derive(Clone, Copy)]
pub struct AskedSoFar {
    pub ask: Ask,
    pub awaited: Awaited,
    // whether `part` was read
    pub is_parted: bool,
}

const NO_KINDS: Kinds = Kinds {
    degraded: false,
    fibres: false,
    spans: false,
    nodes: false,
    manual: false,
    forced: false,
    own: false,
};

impl Kinds {
    /// Returns whether the kind is named.
    pub fn has(self, kind: Kind) -> bool
        ensures { result ≡ has_kind self kind }
    {
        match kind {
            Kind::Degraded => self.degraded,
            Kind::Fibres => self.fibres,
            Kind::Spans => self.spans,
            Kind::Nodes => self.nodes,
            Kind::Manual => self.manual,
            Kind::Forced => self.forced,
            Kind::Own => self.own,
        }
    }

    // Returns the kinds with this one named too.
    fn with(self, kind: Kind) -> Kinds
        ensures { result ≡ with_kind_named self kind }
    {
        let mut kinds = self;
        match kind {
            Kind::Degraded => kinds.degraded = true,
            Kind::Fibres => kinds.fibres = true,
            Kind::Spans => kinds.spans = true,
            Kind::Nodes => kinds.nodes = true,
            Kind::Manual => kinds.manual = true,
            Kind::Forced => kinds.forced = true,
            Kind::Own => kinds.own = true,
        }
        kinds
    }

    // Returns whether any is named.
    fn has_some(self) -> bool
        ensures { result ≡ has_some self }
    {
        self.degraded
            || self.fibres
            || self.spans
            || self.nodes
            || self.manual
            || self.forced
            || self.own
    }

    /// Returns whether failures of a kind are among the cases: the kind is named, or none is.
    pub fn takes(self, kind: Kind) -> bool
        ensures { result ≡ takes self kind }
    {
        self.has(kind) || !self.has_some()
    }
}

// Returns the depth that a word names.
fn depth_named(word: &str) -> Option<Depth>
    ensures { result ≡ depth_named word.now }
{
    if word == "single" {
        Some(Depth::Single)
    } else if word == "double" {
        Some(Depth::Double)
    } else if word == "triple" {
        Some(Depth::Triple)
    } else {
        None
    }
}

// Returns the kind that a word names.
fn kind_named(word: &str) -> Option<Kind>
    ensures { result ≡ kind_named word.now }
{
    if word == "degraded" {
        Some(Kind::Degraded)
    } else if word == "fibres" {
        Some(Kind::Fibres)
    } else if word == "spans" {
        Some(Kind::Spans)
    } else if word == "nodes" {
        Some(Kind::Nodes)
    } else if word == "manual" {
        Some(Kind::Manual)
    } else if word == "forced" {
        Some(Kind::Forced)
    } else {
        None
    }
}

// Returns the form that a word names.
fn form_named(word: &str) -> Option<Form>
    ensures { result ≡ form_named word.now }
{
    if word == "head" {
        Some(Form::Headed)
    } else if word == "json" {
        Some(Form::Json)
    } else if word == "summary" {
        Some(Form::Summary)
    } else {
        None
    }
}

// Returns what is asked for with one more kind.
fn ask_kind(ask: Ask, kind: Kind) -> Option<Ask>
    requires part { IsPart ask }
    ensures is { result ≡ ask_kind ask kind }
    ensures part { IfSome result IsPart }
{
    if ask.kinds.has(kind) {
        return None;
    }
    let kinds = ask.kinds.with(kind);
    Some(Ask { kinds, ..ask })
}

// Returns whether a form is the one that stands where none is asked for.
fn is_plain(form: Form) -> bool
    ensures { result ≡ is_plain_form form }
{
    match form {
        Form::Table => true,
        Form::Headed | Form::Json | Form::Summary => false,
    }
}

// Returns what is asked for in this form.
fn ask_form(ask: Ask, form: Form) -> Option<Ask>
    requires part { IsPart ask }
    ensures is { result ≡ ask_form ask form }
    ensures part { IfSome result IsPart }
{
    if is_plain(ask.form) {
        Some(Ask { form, ..ask })
    } else {
        None
    }
}

// Returns what is asked for with a word that names a kind or a form.
fn ask_word(ask: Ask, word: &str) -> Option<Ask>
    requires part { IsPart ask }
    ensures is { result ≡ ask_word ask word.now }
    ensures part { IfSome result IsPart }
{
    match kind_named(word) {
        Some(kind) => ask_kind(ask, kind),
        None => match form_named(word) {
            Some(form) => ask_form(ask, form),
            None => None,
        },
    }
}

// Returns what is asked for with `part`.
fn begin_part(so_far: AskedSoFar) -> Option<AskedSoFar>
    requires part { IsPart so_far.ask }
    ensures is { result ≡ begin_part so_far }
    ensures part { IfSome result (λ next. IsPart next.ask) }
{
    if so_far.is_parted {
        return None;
    }
    Some(AskedSoFar {
        awaited: Awaited::Part,
        is_parted: true,
        ..so_far
    })
}

// Returns what is asked for with `own`.
fn begin_own(so_far: AskedSoFar) -> AskedSoFar
    ensures is { result ≡ begin_own so_far }
    ensures part { result.ask ≡ so_far.ask }
{
    AskedSoFar {
        awaited: Awaited::Own,
        ..so_far
    }
}

// Returns what is asked for with one more failure of the user's own.
fn with_own(so_far: AskedSoFar) -> AskedSoFar
    requires part { IsPart so_far.ask }
    ensures is { result ≡ with_own so_far }
    ensures part { IsPart result.ask }
{
    AskedSoFar {
        ask: Ask {
            kinds: so_far.ask.kinds.with(Kind::Own),
            ..so_far.ask
        },
        awaited: Awaited::Any,
        is_parted: so_far.is_parted,
    }
}

// Returns what is asked for with a word that is no number of a part and no text of a failure.
fn read_any(so_far: AskedSoFar, word: &str) -> Option<AskedSoFar>
    requires part { IsPart so_far.ask }
    ensures is { result ≡ read_any so_far word.now }
    ensures part { IfSome result (λ next. IsPart next.ask) }
{
    if word == "part" {
        return begin_part(so_far);
    }
    if word == "own" {
        return Some(begin_own(so_far));
    }
    match ask_word(so_far.ask, word) {
        Some(ask) => Some(AskedSoFar { ask, ..so_far }),
        None => None,
    }
}

// Returns what is asked for with the number of a part.
fn read_part(so_far: AskedSoFar, word: &str) -> Option<AskedSoFar>
    ensures is { result ≡ read_part so_far word.now }
    ensures part { IfSome result (λ next. IsPart next.ask) }
{
    let part = numeral_in(word.as_bytes(), 1, u32::MAX)?;
    Some(AskedSoFar {
        ask: Ask {
            part,
            parts: u32::MAX,
            ..so_far.ask
        },
        awaited: Awaited::Parts,
        is_parted: so_far.is_parted,
    })
}

// Returns what is asked for with the number of parts.
fn read_parts(so_far: AskedSoFar, word: &str) -> Option<AskedSoFar>
    requires part { IsPart so_far.ask }
    ensures is { result ≡ read_parts so_far word.now }
    ensures part { IfSome result (λ next. IsPart next.ask) }
{
    let parts = numeral_in(word.as_bytes(), so_far.ask.part, u32::MAX)?;
    Some(AskedSoFar {
        ask: Ask {
            parts,
            ..so_far.ask
        },
        awaited: Awaited::Any,
        is_parted: so_far.is_parted,
    })
}

// Returns what is asked for with one more word.
fn read_word(so_far: AskedSoFar, word: &str) -> Option<AskedSoFar>
    requires part { IsPart so_far.ask }
    ensures is { result ≡ read_word so_far word.now }
    ensures part { IfSome result (λ next. IsPart next.ask) }
{
    match so_far.awaited {
        Awaited::Any => read_any(so_far, word),
        Awaited::Part => read_part(so_far, word),
        Awaited::Parts => read_parts(so_far, word),
        Awaited::Own => Some(with_own(so_far)),
    }
}

// Returns what is asked for with these words more.
fn read_words(start: AskedSoFar, words: &[String]) -> Option<AskedSoFar>
    requires part { IsPart start.ask }
    ensures is { result ≡ read_words start (words_of words.now) }
    ensures part { IfSome result (λ next. IsPart next.ask) }
{
    let mut so_far = start;
    for word in words {
        match read_word(so_far, word) {
            Some(next) => so_far = next,
            None => return None,
        }
    }
    Some(so_far)
}

// Returns whether no number and no text is missing.
fn is_whole(awaited: Awaited) -> bool
    ensures { result ≡ is_whole awaited }
{
    match awaited {
        Awaited::Any => true,
        Awaited::Part | Awaited::Parts | Awaited::Own => false,
    }
}

// Returns whether cases in a form may be listed in parts.
fn may_be_parted(form: Form) -> bool
    ensures { result ≡ may_be_parted form }
{
    match form {
        Form::Table | Form::Headed | Form::Json => true,
        Form::Summary => false,
    }
}

// Returns what was asked for at the end of the words.
fn finished(so_far: AskedSoFar) -> Option<Ask>
    requires part { IsPart so_far.ask }
    ensures is { result ≡ finished so_far }
    ensures part { IfSome result IsPart }
{
    if is_whole(so_far.awaited) && (!so_far.is_parted || may_be_parted(so_far.ask.form)) {
        Some(so_far.ask)
    } else {
        None
    }
}

// Returns what is asked for where nothing but a depth was read.
fn begun(depth: Depth) -> AskedSoFar
    ensures is { result ≡ begun depth }
    ensures part { IsPart result.ask }
{
    AskedSoFar {
        ask: Ask {
            depth,
            kinds: NO_KINDS,
            form: Form::Table,
            part: 1,
            parts: 1,
        },
        awaited: Awaited::Any,
        is_parted: false,
    }
}

/// Returns what the words ask for, or `None` where they have no form that the program knows.
#[tactic(auto, unfolding(crate::specs::Words::asked))]
pub fn asked(words: &[String]) -> Option<Ask>
    ensures is { result ≡ asked (words_of words.now) }
    ensures part { IfSome result IsPart }
{
    let [word, others @ ..] = words else {
        return None;
    };
    let depth = depth_named(word)?;
    let so_far = read_words(begun(depth), others)?;
    finished(so_far)
}
