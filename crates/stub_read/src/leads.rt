//! The first words of lines.

ghost use Rattle.std.specs.Prelude.{◌≡◌, ◌≤◌, drop, length, map, option_map};
ghost use Rattle.stub_read.specs.Leads.{lead_at, led_in, put_lead_at};

/// The form of an operation, which the first word of its line tells.
#[derive(Clone, Copy, Drop)]
pub(crate) enum Lead {
    /// The line `ensure`.
    Ensure,
    /// The line `ensure_row`.
    EnsureRow,
    /// The line `align`.
    Align,
    /// The line `chunk`, before puts.
    Chunk,
    /// The line `row_copy`.
    RowCopy,
    /// The line `row_swap`.
    RowSwap,
    /// The line `row_wide`.
    RowWide,
    /// The line `each`, before a body.
    Each,
    /// The line `switch`, before bodies.
    Switch,
    /// The line `some`, before a body.
    There,
    /// The line `call`.
    Call,
    /// The line `patch`.
    Patch,
}

/// The form of a put, which a word behind its offset tells.
#[derive(Clone, Copy, Drop)]
pub(crate) enum PutLead {
    /// The word `num`.
    Num,
    /// The word `tag`.
    Tag,
    /// The word `flag`.
    Flag,
    /// The word `count`.
    Count,
    /// The word `short`.
    Short,
    /// The word `const`.
    Const,
    /// The word `head`.
    Head,
}

/// The first words of operations.
const OPERATIONS: [(&[u8], Lead); 12] = [
    (b"ensure ", Lead::Ensure),
    (b"ensure_row ", Lead::EnsureRow),
    (b"align ", Lead::Align),
    (b"chunk ", Lead::Chunk),
    (b"row_copy ", Lead::RowCopy),
    (b"row_swap ", Lead::RowSwap),
    (b"row_wide ", Lead::RowWide),
    (b"each ", Lead::Each),
    (b"switch ", Lead::Switch),
    (b"some ", Lead::There),
    (b"call ", Lead::Call),
    (b"patch ", Lead::Patch),
];

/// The words of puts.
const PUTS: [(&[u8], PutLead); 7] = [
    (b"num ", PutLead::Num),
    (b"tag ", PutLead::Tag),
    (b"flag ", PutLead::Flag),
    (b"count ", PutLead::Count),
    (b"short ", PutLead::Short),
    (b"const ", PutLead::Const),
    (b"head ", PutLead::Head),
];

/// The form of an operation, and what follows the first word of its line.
#[tactic(auto, unfolding(crate::specs::Leads::rest_lead_at))]
pub(crate) fn operation_lead(text: &[u8]) -> Option<(Lead, &[u8])>
    ensures { option_map (λ x. (x.0, x.1.now)) result ≡ lead_at text.now }
{
    led_in(text, &OPERATIONS)
}

/// The form of a put, and what follows its word.
pub(crate) fn put_lead(text: &[u8]) -> Option<(PutLead, &[u8])>
    ensures { option_map (λ x. (x.0, x.1.now)) result ≡ put_lead_at text.now }
{
    led_in(text, &PUTS)
}

/// What the first word of a table that begins a text stands for, and what follows the word.
fn led_in<'a, L: Copy>(text: &'a [u8], table: &[(&[u8], L)]) -> Option<(L, &'a [u8])>
    ensures { option_map (λ x. (x.0, x.1.now)) result
        ≡ led_in (map (λ e. (e.0.now, e.1)) table.now) text.now }
{
    for (word, lead) in table {
        if text.starts_with(word) {
            return Some((*lead, behind(word.len(), text)));
        }
    }
    None
}

/// What follows so many octets.
fn behind(n: usize, text: &[u8]) -> &[u8]
    requires { n ≤ length text.now }
    ensures { result.now ≡ drop n text.now }
{
    &text[n..]
}
