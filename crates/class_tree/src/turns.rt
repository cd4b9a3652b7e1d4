ghost use Rattle.std.specs.Prelude.{◌≡◌, None};
ghost use Rattle.std.specs.List.Sorted.{IsNonDecreasingBy};
ghost use Rattle.class_tree.specs.Turns.{turned};

/// From the class with this number on a look-up gives this row, up to the next turn.
#[derive(Clone, Copy)]
pub struct Turn {
    pub at: u32,
    pub row: Option<u32>,
}

/// The row of the last turn at the number or before it.
pub fn row_at(turns: &[Turn], number: u32) -> Option<u32>
    requires { IsNonDecreasingBy (λ t. t.at) turns.now }
    ensures { result ≡ turned None turns.now number }
{
    let after = turns.partition_point(|turn| turn.at <= number);
    if after == 0 {
        return None;
    }
    turns[after - 1].row
}
