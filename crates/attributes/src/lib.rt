// Attributes tables: from a VGA attribute byte to its cell. And what byte tables share with them: `dot` lines, and the
// cell of a byte by the states of the dots.
#![tactic(auto)]

ghost use Rattle.std.specs.Prelude.{◌≡◌, ◌+◌, ◌≤◌, ◌<◌, length, IfOk, IfSome};
ghost use Rattle.attributes.specs.Cells.{is_on, is_raised, cell_by, attribute_cell, all_unnamed};
ghost use Rattle.attributes.specs.Reader.{attribute_of, state_of, fixed_state, state_in, dot_number};
ghost use Rattle.attributes.specs.Reader.{state_at, dot_at, dot_line};
ghost use Rattle.attributes.specs.Compile.{is_named, read_dot_line, dot_states, with_dot, dot_step};
ghost use Rattle.attributes.specs.Compile.{compiled_attributes, attributes_reply, outcome_places};
ghost use Rattle.attributes.specs.Internal.{DotWithin, text_gives};
ghost use Rattle.lines.specs.Lines.{without_cr};
ghost use Rattle.lines.specs.Texts.{text_limit, outcome_column, compiled_reply, compiled_column};
ghost use Rattle.lines.specs.Internal.{step_of};

use basics::Refusal;
use lines::{LineFault, Opening, Rejection, TEXT_LIMIT, Word};

// The eight attribute bits.
#[derive(Clone, Copy)]
pub enum Attribute {
    FgBlue = 0x01,
    FgGreen = 0x02,
    FgRed = 0x04,
    FgBright = 0x08,
    BgBlue = 0x10,
    BgGreen = 0x20,
    BgRed = 0x40,
    Blink = 0x80,
}

// What a table says of a dot: nothing, raised by an attribute that is on or by one that is off, always or never raised.
// `Unnamed` is a case: an `Option` of the other four would be asked before each of them.
#[derive(Clone, Copy)]
pub enum State {
    Unnamed,
    On(Attribute),
    Off(Attribute),
    Always,
    Never,
}

// The states that a table knows: by an attribute alone, or `on` and `off` too.
#[derive(Clone, Copy)]
pub enum States {
    ByAttribute,
    WithFixed,
}

// What the attributes compile call answers, with the count of `dot` lines, and the table: the state of dot d is the
// (d-1)-th. The table stands beside the answer, since a refusal hands one too, with all dots unnamed.
#[derive(Clone, Copy)]
pub struct Attributes {
    pub answer: Result<usize, Rejection>,
    pub places: [State; 8],
}

// A dot (0 to 7) with its state, as read of a line whose word `dot` begins `left` bytes before its end.
#[derive(Clone, Copy)]
pub struct DotLine {
    pub dot: usize,
    pub state: State,
    pub left: usize,
}

// The states so far, and how many `dot` lines named them.
#[derive(Clone, Copy)]
pub struct DotStates {
    pub places: [State; 8],
    pub lines: usize,
}

impl Attribute {
    // Whether its bit is on.
    #[tactic(auto, using(crate::proofs::Cells::bit_on))]
    fn is_on(self, byte: u8) -> bool
        ensures { result ≡ is_on self byte }
    {
        byte & self as u8 != 0
    }
}

impl State {
    // Whether a dot of that state is raised; `unnamed` says it of a dot without a line.
    fn is_raised(self, unnamed: bool, byte: u8) -> bool
        ensures { result ≡ is_raised unnamed self byte }
    {
        match self {
            State::Unnamed => unnamed,
            State::On(name) => name.is_on(byte),
            State::Off(name) => !name.is_on(byte),
            State::Always => true,
            State::Never => false,
        }
    }

    fn is_named(self) -> bool
        ensures { result ≡ is_named self }
    {
        !matches!(self, State::Unnamed)
    }
}

// The cell of a byte by the states of the dots; `unnamed` says whether a dot without a line is raised. It is the answer
// for such a dot, no switch.
pub fn cell_by(unnamed: bool, places: [State; 8], byte: u8) -> u8
    ensures { result ≡ cell_by unnamed places byte }
{
    let mut cell = 0u8;
    for (i, state) in places.iter().enumerate() {
        if state.is_raised(unnamed, byte) {
            cell += 1 << i;
        }
    }
    cell
}

// The cell of an attribute byte.
pub fn attribute_cell(places: [State; 8], byte: u8) -> u8
    ensures { result ≡ attribute_cell places byte }
{
    cell_by(false, places, byte)
}

// The attribute of a name.
fn attribute_of(name: &[u8]) -> Option<Attribute>
    ensures { result ≡ attribute_of name.now }
{
    let names: [(&[u8], Attribute); 8] = [
        (b"fg-blue", Attribute::FgBlue),
        (b"fg-green", Attribute::FgGreen),
        (b"fg-red", Attribute::FgRed),
        (b"fg-bright", Attribute::FgBright),
        (b"bg-blue", Attribute::BgBlue),
        (b"bg-green", Attribute::BgGreen),
        (b"bg-red", Attribute::BgRed),
        (b"blink", Attribute::Blink),
    ];
    for (text, attribute) in names {
        if lines::same_bytes(name, text) {
            return Some(attribute);
        }
    }
    None
}

// A whole word as a sign and a name.
#[tactic(auto, using(crate::proofs::Reader::state_names))]
fn state_of(w: &[u8]) -> Option<State>
    ensures { result ≡ state_of w.now }
{
    let (sign, name) = w.split_first()?;
    let attribute = attribute_of(name)?;
    match sign {
        b'=' => Some(State::On(attribute)),
        b'~' => Some(State::Off(attribute)),
        _ => None,
    }
}

// The same, or `on` or `off`.
#[tactic(auto, using(basics::proofs::Tests::chosen), unfolding(crate::specs::Reader::fixed_state))]
fn fixed_state(w: &[u8]) -> Option<State>
    ensures { result ≡ fixed_state w.now }
{
    if lines::same_bytes(w, b"on") {
        return Some(State::Always);
    }
    if lines::same_bytes(w, b"off") {
        return Some(State::Never);
    }
    state_of(w)
}

// A whole word as a state that a table knows.
fn state_in(states: States, w: &[u8]) -> Option<State>
    ensures { result ≡ state_in states w.now }
{
    match states {
        States::ByAttribute => state_of(w),
        States::WithFixed => fixed_state(w),
    }
}

// A word as the number of a dot, from 0 on.
#[tactic(auto, using(basics::proofs::Tests::tests), unfolding(crate::specs::Reader::dot_number))]
fn dot_number(w: &[u8]) -> Option<usize>
    ensures value { result ≡ dot_number w.now }
    ensures eight { IfSome result (λ dot. dot < 8) }
{
    match w {
        [digit @ b'1'..=b'8'] => Some(usize::from(*digit - b'1')),
        _ => None,
    }
}

// The state at the end of a line, from behind the dot number on.
#[tactic(auto, using(crate::proofs::Reader::ways), unfolding(crate::specs::Reader::state_at))]
fn state_at(states: States, line: &[u8], at: usize) -> Result<State, LineFault>
    requires { at ≤ length line.now }
    ensures { result ≡ state_at states line.now at }
{
    let w = operands::operand_word(line, at)?;
    let Some(state) = state_in(states, &line[w.start..w.end]) else {
        return Err(LineFault {
            refusal: Refusal::BadState,
            left: line.len() - w.start,
        });
    };
    operands::ended(line, w.end)?;
    Ok(state)
}

// A line from behind the word `dot` on, in a table that knows these states.
#[tactic(auto, using(crate::proofs::Reader::ways), unfolding(crate::specs::Reader::dot_at))]
pub fn dot_at(states: States, line: &[u8], at: usize, left: usize) -> Result<DotLine, LineFault>
    requires { at ≤ length line.now }
    ensures value { result ≡ dot_at states line.now at left }
    ensures dot_within { IfOk result (λ d. DotWithin d) }
{
    let w = operands::operand_word(line, at)?;
    let Some(dot) = dot_number(&line[w.start..w.end]) else {
        return Err(LineFault {
            refusal: Refusal::BadDots,
            left: line.len() - w.start,
        });
    };
    let state = state_at(states, line, w.end)?;
    Ok(DotLine { dot, state, left })
}

// A line that is no comment, from its first word on.
#[tactic(auto, using(crate::proofs::Reader::first_word, basics::proofs::Tests::chosen))]
fn dot_line(line: &[u8]) -> Result<DotLine, LineFault>
    ensures value { result ≡ dot_line line.now }
    ensures dot_within { IfOk result (λ d. DotWithin d) }
{
    let w = lines::next_word(line, 0);
    let left = line.len() - w.start;
    if lines::same_bytes(&line[w.start..w.end], b"dot") {
        return dot_at(States::ByAttribute, line, w.end, left);
    }
    Err(LineFault {
        refusal: Refusal::UnknownDirective,
        left,
    })
}

// A whole line, without its end: a dot with its state, or nothing.
#[tactic(auto, using(crate::proofs::Reader::ways), unfolding(crate::specs::Compile::read_dot_line))]
fn read_dot_line(line: &[u8]) -> Result<Option<DotLine>, LineFault>
    ensures value { result ≡ read_dot_line line.now }
    ensures dot_within { IfOk result (λ read. IfSome read (λ d. DotWithin d)) }
{
    match lines::open_line(line)? {
        Opening::Skip => Ok(None),
        Opening::Directive => Ok(Some(dot_line(line)?)),
    }
}

impl DotStates {
    // Before the first line: no dot has one.
    pub fn new() -> DotStates
        ensures { result ≡ dot_states all_unnamed 0 }
    {
        DotStates {
            places: [State::Unnamed; 8],
            lines: 0,
        }
    }

    // The states with a dot's line more, unless that dot has one.
    pub fn with_dot(mut self, read: DotLine) -> Result<DotStates, LineFault>
        requires dot_within { DotWithin read }
        requires few_lines { self.lines < text_limit }
        ensures states_value { step_of result ≡ with_dot self read }
        ensures lines_bound { IfOk result (λ f. f.lines ≤ self.lines + 1) }
    {
        if self.places[read.dot].is_named() {
            return Err(LineFault {
                refusal: Refusal::AlreadyDefined,
                left: read.left,
            });
        }
        self.places[read.dot] = read.state;
        self.lines += 1;
        Ok(self)
    }

    // The states after one line more, its LF not in it.
    #[tactic(auto, using(crate::proofs::Compile::on_line))]
    fn after(self, line: &[u8]) -> Result<DotStates, LineFault>
        requires { self.lines < text_limit }
        ensures states_value { step_of result ≡ dot_step self (without_cr line.now) }
        ensures lines_bound { IfOk result (λ f. f.lines ≤ self.lines + 1) }
    {
        match read_dot_line(lines::without_cr(line))? {
            None => Ok(self),
            Some(read) => self.with_dot(read),
        }
    }
}

// Reads the lines of a text, up to the first that is refused.
fn read_text(text: &[u8]) -> Result<DotStates, Rejection>
    ensures { text_gives result ≡ compiled_attributes text.now }
{
    if TEXT_LIMIT < text.len() {
        return Err(Refusal::TextTooLong.into());
    }
    let mut states = DotStates::new();
    for (i, line) in lines::lines_of(text).enumerate() {
        match states.after(line) {
            Ok(next) => states = next,
            Err(fault) => return Err(fault.in_line(line, i + 1)),
        }
    }
    Ok(states)
}

// Compiles an attributes text: any bytes.
pub fn compile_attributes(text: &[u8]) -> Attributes
    ensures answer { compiled_reply result.answer ≡ attributes_reply (compiled_attributes text.now) }
    ensures column { compiled_column result.answer ≡ outcome_column (compiled_attributes text.now) }
    ensures places { result.places ≡ outcome_places (compiled_attributes text.now) }
{
    match read_text(text) {
        Ok(states) => {
            // A local each: an array does not go straight from a field into a struct.
            let places = states.places;
            Attributes {
                answer: Ok(states.lines),
                places,
            }
        }
        Err(rejection) => {
            let states = DotStates::new();
            let places = states.places;
            Attributes {
                answer: Err(rejection),
                places,
            }
        }
    }
}
