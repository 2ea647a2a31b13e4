// Open blocks: which half of each is taken, whether its `else` is past, and the line that opened it.
#![tactic(auto)]

ghost use Rattle.std.specs.Prelude.{◌≡◌, ◌-◌, ◌≤◌};
ghost use Rattle.blocks.specs.Blocks.{depth_limit, is_taken, inert};

// How many open blocks and conditions of a line there may be together.
const DEPTH_LIMIT: usize = 8;

// An open block: whether its first half is taken, whether its second is, and whether its `else` is past. One flag does
// not say the other: in lines not taken neither half is.
#[derive(Clone, Copy, Default)]
pub struct OpenBlock {
    pub first: bool,
    pub second: bool,
    pub past: bool,
}

// An open block and the number of the line that opened it.
#[derive(Clone, Copy, Default)]
pub struct Level {
    pub block: OpenBlock,
    pub start: usize,
}

// The open blocks: the first `depth` levels, the innermost last.
#[derive(Clone, Copy)]
pub struct Blocks {
    pub levels: [Level; DEPTH_LIMIT],
    pub depth: usize,
    pub ghost within: { depth ≤ depth_limit },
}

// A line that opens a block, with the halves that are taken; or goes on to its second half; or closes it.
#[derive(Clone, Copy)]
pub enum BlockLine {
    Else,
    EndIf,
    Open { first: bool, second: bool },
}

// What a line has to know of the blocks around it: how many conditions it may have, whether it is taken, whether `else`
// and whether `endIf` may stand. Each answers what another word asks.
#[derive(Clone, Copy)]
pub struct Around {
    pub room: usize,
    pub taken: bool,
    pub turns: bool,
    pub closes: bool,
}

impl OpenBlock {
    // Whether lines at this place in the block are taken.
    fn is_taken(self) -> bool
        ensures { result ≡ is_taken self }
    {
        if self.past { self.second } else { self.first }
    }
}

impl BlockLine {
    // The line behind a failed condition, or inside lines not taken.
    pub fn inert(self) -> BlockLine
        ensures { result ≡ inert self }
    {
        match self {
            BlockLine::Open { .. } => BlockLine::Open {
                first: false,
                second: false,
            },
            other => other,
        }
    }
}

impl Blocks {
    ghost use Rattle.blocks.specs.Blocks.{around_of};
    ghost use Rattle.blocks.specs.Internal.{no_blocks, levels_of, blocks_of, starts_of, first_of, RoomFor, Changed};

    // No block open.
    pub fn new() -> Blocks
        ensures { result ≡ no_blocks }
    {
        Blocks {
            levels: [Level::default(); DEPTH_LIMIT],
            depth: 0,
        }
    }

    // The innermost level.
    fn top(&self) -> Option<Level>
        ensures { result ≡ first_of (levels_of self.now) }
    {
        self.levels[..self.depth].last().copied()
    }

    // What a line has to know of the blocks around it.
    pub fn around(&self) -> Around
        ensures { result ≡ around_of (blocks_of self.now) }
    {
        let room = DEPTH_LIMIT - self.depth;
        match self.top() {
            None => Around {
                room,
                taken: true,
                turns: false,
                closes: false,
            },
            Some(Level { block, .. }) => Around {
                room,
                taken: block.is_taken(),
                turns: !block.past,
                closes: true,
            },
        }
    }

    // Takes a line of that number.
    pub fn take_line(&mut self, line: BlockLine, number: usize)
        requires { RoomFor (depth_limit - self.old.depth) line }
        ensures { Changed self.old line number self.new }
    {
        match line {
            BlockLine::Open { first, second } => {
                let block = OpenBlock {
                    first,
                    second,
                    past: false,
                };
                self.levels[self.depth] = Level {
                    block,
                    start: number,
                };
                self.depth += 1;
            }
            BlockLine::Else => {
                if let Some(top) = self.depth.checked_sub(1) {
                    self.levels[top].block.past = true;
                }
            }
            BlockLine::EndIf => self.depth = self.depth.saturating_sub(1),
        }
    }

    // The open blocks after a line of that number.
    pub fn after(mut self, line: BlockLine, number: usize) -> Blocks
        requires { RoomFor (depth_limit - self.depth) line }
        ensures { Changed self line number result }
    {
        self.take_line(line, number);
        self
    }

    // The number of the line that opened the innermost block.
    pub fn innermost(&self) -> Option<usize>
        ensures { result ≡ first_of (starts_of self.now) }
    {
        self.top().map(|level| level.start)
    }
}
