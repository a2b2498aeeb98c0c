// Laws of the definitions, for every text and every key.
ghost use Rattle.std.specs.Prelude.{◌≡◌, List, ℕ, Ok, Err, None, Some};
ghost use Rattle.ty_keys.specs.declared.key.Key.{Key as KeyOf};
ghost use Rattle.ty_keys.specs.declared.key.KeyFault.{KeyFault as FaultOf};
ghost use Rattle.ty_keys.specs.Faults.{fault_of};
ghost use Rattle.ty_keys.specs.Grammar.{IsKey, key_text};
ghost use Rattle.ty_keys.specs.Forms.{read_key};

/// Reading gives the key whose one text it is, or the text's fault, and reads every key's text.
pub fn keys_read_back()
    ensures only { (text : List ℕ) (k : KeyOf) → read_key text ≡ Ok k → IsKey k × (text ≡ key_text k) }
    ensures clean { (text : List ℕ) (k : KeyOf) → read_key text ≡ Ok k → fault_of text ≡ None }
    ensures fault { (text : List ℕ) (f : FaultOf) → read_key text ≡ Err f → fault_of text ≡ Some f }
    ensures back { (k : KeyOf) → IsKey k → read_key (key_text k) ≡ Ok k }
{}
