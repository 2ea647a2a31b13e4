// The page call for many windows: their cells and rules, one after another.
#![tactic(auto)]

ghost use Rattle.std.specs.Prelude.{◌≡◌, ◌≤◌, map, length, leb};
ghost use Rattle.basics.specs.Choice.{if_some};
ghost use Rattle.basics.specs.Refusals.{answered, refused, reply_of};
ghost use Rattle.basics.specs.Buffers.{over};
ghost use Rattle.definitions.specs.Definitions.{table};
ghost use Rattle.rules.specs.Internal.{lookup_by};
ghost use Rattle.windows.specs.declared.Window.{Window};
ghost use Rattle.windows.specs.Windows.{parts_of, widths, is_within, all_within, PagesWindows, windows_of};
ghost use Rattle.windows.specs.Internal.{pair_window};

use basics::{Refusal, Refused};
use pairs::Finder;
use rules::Rules;

// A start and a width on the page.
#[repr(C)]
#[derive(Clone, Copy)]
pub struct Window {
    pub start: usize,
    pub width: usize,
}

// What stands for a window in a list: a window, or two numbers.
trait AsWindow {
    ghost window: { Self → Window };

    fn window(&self) -> Window
        ensures { result ≡ window self.now };
}

impl AsWindow for Window {
    ghost window = { λ w. w };

    fn window(&self) -> Window {
        *self
    }
}

impl AsWindow for [usize; 2] {
    ghost window = { pair_window };

    fn window(&self) -> Window {
        let [start, width] = *self;
        Window { start, width }
    }
}

// Whether a window lies within a page of so many characters. Its start plus its width may pass 2^64, so the sum is not
// formed.
fn is_within(w: Window, page: usize) -> bool
    ensures { result ≡ is_within page w }
{
    w.start <= page && w.width <= page - w.start
}

// The first window that does not lie within a page of so many characters.
fn first_beyond<W: AsWindow>(windows: &[W], page: usize) -> Option<usize>
    ensures { if_some result (answered tt) (λ i. refused 19 i) ≡ all_within page (map W.window windows.now) 0 }
{
    windows.iter().position(|w| !is_within(w.window(), page))
}

// Whether so many bytes hold all windows together. Their widths may come to more than 2^64, so the sum is not formed.
fn fit<W: AsWindow>(windows: &[W], room: usize) -> bool
    ensures { result ≡ leb (widths (map W.window windows.now)) room }
{
    let mut left = room;
    for w in windows {
        let Some(rest) = left.checked_sub(w.window().width) else {
            return false;
        };
        left = rest;
    }
    true
}

// Fills both outputs, one window after another.
fn fill<W: AsWindow, T: Finder>(
    by: &Rules<T>,
    windows: &[W],
    page: &[u32],
    cells: &mut [u8],
    rules: &mut [u8],
)
    requires within { all_within (length page.now) (map W.window windows.now) 0 ≡ answered tt }
    requires cell_room { widths (map W.window windows.now) ≤ length cells.old }
    requires rule_room { widths (map W.window windows.now) ≤ length rules.old }
    ensures cells { cells.new ≡ over
        (map (λ c. (lookup_by by.now.charset (table (T.definitions by.now.finder)) by.now.last c).cell)
        (parts_of page.now (map W.window windows.now)))
        cells.old }
    ensures rules { rules.new ≡ over
        (map (λ c. (lookup_by by.now.charset (table (T.definitions by.now.finder)) by.now.last c).rule)
        (parts_of page.now (map W.window windows.now)))
        rules.old }
{
    let mut at = 0;
    for w in windows {
        let w = w.window();
        let part = &page[w.start..w.start + w.width];
        let end = at + w.width;
        lookup::fill(by, part, &mut cells[at..end], &mut rules[at..end]);
        at = end;
    }
}

// The call for any list of what stands for windows.
fn show_listed<W: AsWindow>(
    windows: &[W],
    words: &[u32],
    page: &[u32],
    cells: &mut [u8],
    rules: &mut [u8],
) -> Result<(), Refused>
    ensures { PagesWindows (λ reply. reply) (map W.window windows.now) words.now page.now cells.old rules.old
        (reply_of result) cells.new rules.new }
{
    let pairs = table::lent_table(words)?;
    if let Some(number) = first_beyond(windows, page.len()) {
        return Err(Refused {
            refusal: Refusal::BeyondPage,
            place: number,
        });
    }
    if !fit(windows, cells.len().min(rules.len())) {
        return Err(Refusal::ShortSlice.into());
    }
    if let Some(place) = lookup::first_no_scalar(page) {
        return Err(Refused {
            refusal: Refusal::NotScalar,
            place,
        });
    }
    let by = Rules::new(pairs, table::charset_of(words));
    fill(&by, windows, page, cells, rules);
    Ok(())
}

// The page call for many windows: any slices.
pub fn show(
    windows: &[Window],
    words: &[u32],
    page: &[u32],
    cells: &mut [u8],
    rules: &mut [u8],
) -> Result<(), Refused>
    ensures { PagesWindows (λ reply. reply) windows.now words.now page.now cells.old rules.old
        (reply_of result) cells.new rules.new }
{
    show_listed(windows, words, page, cells, rules)
}

// The same call for callers that have no slice of structs: two numbers a window, start and width.
pub fn show_numbers(
    numbers: &[usize],
    words: &[u32],
    page: &[u32],
    cells: &mut [u8],
    rules: &mut [u8],
) -> Result<(), Refused>
    ensures { PagesWindows (λ reply. reply) (windows_of numbers.now) words.now page.now cells.old rules.old
        (reply_of result) cells.new rules.new }
{
    show_listed(numbers.as_chunks::<2>().0, words, page, cells, rules)
}
