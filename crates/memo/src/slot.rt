// Where a record's own mark stands in a row of marks beside the memo.
ghost use Rattle.std.specs.Prelude.{◌≡◌, ℕ, ◌/◌, List};
ghost use Rattle.memo.specs.Log.{Fits, Record};

// The place of a record in a row of marks: no two records of a memo have one place, since a record has seven words at least.
pub fn slot(d: usize) -> usize
    ensures is { result ≡ d / 7 }
    ensures apart { (ws : List ℕ) (e : ℕ) → Fits ws → Record ws d → Record ws e → result ≡ e / 7 → d ≡ e }
{
    d / 7
}
