// What a heap asks of its entries: a total order on some of their fields, and how many can wait.
ghost use Rattle.std.specs.Prelude.{◌≡◌, ℕ, Bool, true, false, not, List, ◌≢◌};

// It is no `Ord`: the urgency of a job leaves out a field, so it does not agree with `==`.
pub trait HeapEntry: Copy {
    // how many entries of this kind can wait
    const MOST: usize;

    ghost MOST: { ℕ };

    // the fields that the order looks at
    ghost fields: { Self → List ℕ };

    // `ahead x y` says that x comes before y
    ghost ahead: { Self → Self → Bool };

    // Whether this entry comes before the other.
    fn before(&self, other: &Self) -> bool
        ensures { result ≡ ahead self.now other.now };

    // of two entries that differ in their order fields just one comes before the other
    ghost one: { (x y : Self) → (fields x ≢ fields y) → ahead x y ≡ not (ahead y x) };

    // of two that agree in them neither does
    ghost neither: { (x y : Self) → fields x ≡ fields y → ahead x y ≡ false };

    // "before" passes along a chain
    ghost chain: { (x y z : Self) → ahead x y ≡ true → ahead y z ≡ true → ahead x z ≡ true };
}
