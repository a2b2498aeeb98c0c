// What holds of any words, over the definitions alone. The laws take no input and do nothing: the contract is all.
ghost use Rattle.std.specs.Prelude.{List, ℕ};
ghost use Rattle.ty_words.specs.Fitting.{Fits};
ghost use Rattle.ty_words.specs.Words.{command_of};

/// A follower's host has at most `HOST_BYTES` bytes, whatever the words are.
pub fn hosts_fit()
    ensures { (words : List (List ℕ)) → Fits (command_of words) }
{}
