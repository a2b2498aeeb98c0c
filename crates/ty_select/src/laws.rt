// Laws of the definitions, for every selector.
ghost use Rattle.std.specs.Prelude.{◌≡◌, ◌≤◌, List, ℕ, Ok, Err};
ghost use Rattle.ty_select.specs.declared.limits.TheConstants.{MOST_OPEN};
ghost use Rattle.ty_select.specs.Forms.{Form};
ghost use Rattle.ty_select.specs.Printable.{IsPrintable};
ghost use Rattle.ty_select.specs.Text.{printed, depth};
ghost use Rattle.ty_select.specs.Expressions.{selector_of};
ghost use Rattle.ty_select.specs.Grammar.{IsSelector, IsSelectorWithin};
ghost use Rattle.ty_select.specs.Places.{IsFaultPlace};
ghost use Rattle.ty_select.specs.declared.fault.SelectFault.TheVariants.{Bad, TooDeep};
ghost use Rattle.ty_select.specs.declared.fault.Wanted.{Wanted};

/// What is printed is read again, where no more than `MOST_OPEN` of `!` and `(` are open at once.
pub fn printed_reads_back()
    ensures { (f : Form) → IsPrintable f → depth f ≤ MOST_OPEN → selector_of (printed f) ≡ Ok f }
{}

/// What is read can be printed, so that its text reads back where no more than `MOST_OPEN` are open there.
pub fn what_is_read_is_printable()
    ensures { (text : List ℕ) (f : Form) → selector_of text ≡ Ok f → IsPrintable f }
{}

/// What is read is in the grammar, with no more than `MOST_OPEN` of `!` and `(` open at once.
pub fn what_is_read_is_in_the_grammar()
    ensures { (text : List ℕ) (f : Form) → selector_of text ≡ Ok f → IsSelectorWithin MOST_OPEN text f }
{}

/// What is in the grammar is read, where no more than `MOST_OPEN` of `!` and `(` are open at once.
pub fn what_is_in_the_grammar_is_read()
    ensures { (text : List ℕ) (f : Form) → IsSelectorWithin MOST_OPEN text f → selector_of text ≡ Ok f }
{}

/// No text is two selectors of the grammar, however many `!` and `(` are open.
pub fn one_reading()
    ensures { (text : List ℕ) (f g : Form) → IsSelector text f → IsSelector text g → f ≡ g }
{}

/// A fault stands where the tokens before it begin a selector with no more than `MOST_OPEN` of `!` and `(` open at
/// once, and those up to it begin none; nor do they where more may be open, unless the fault is that too many are.
pub fn faults_stand_where_no_selector_goes_on()
    ensures bad { (text : List ℕ) (place : ℕ) (wanted : Wanted) → selector_of text ≡ Err (Bad place wanted)
        → (n : ℕ) → MOST_OPEN ≤ n → IsFaultPlace n text place }
    ensures too_deep { (text : List ℕ) (place : ℕ) → selector_of text ≡ Err (TooDeep place) → IsFaultPlace MOST_OPEN text place }
{}
