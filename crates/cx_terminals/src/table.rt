//! Tables from texts.
ghost use Rattle.std.specs.Prelude.{◌≡◌, bytes_eq, map};
ghost use Rattle.cx_terminals.specs.Terminals.{looked_up};

/// Whether two texts are equal.
fn equals(text: &[u8], other: &[u8]) -> bool
    ensures { result ≡ bytes_eq text.now other.now }
{
    text == other
}

/// What stands beside a text in a table.
#[tactic(auto, unfolding(crate::specs::Terminals::looked_up))]
pub(crate) fn looked_up<A: Copy>(text: &[u8], table: &[(&[u8], A)]) -> Option<A>
    ensures { result ≡ looked_up text.now (map (λ row. (row.0.now, row.1)) table.now) }
{
    for row in table {
        if equals(text, row.0) {
            return Some(row.1);
        }
    }
    None
}
