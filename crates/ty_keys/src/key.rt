// Keys, their texts, and why a text is none.
ghost use Rattle.std.specs.Prelude.{◌≡◌, ◌≢◌, ◌++◌, IfOk, IfErr, OnOk, OnErr, Some, None, Ok, Err};
ghost use Rattle.ty_keys.specs.declared.key.KeyFault.TheVariants.{NoMemory as Lacking};
ghost use Rattle.ty_keys.specs.declared.key.Key.{Key as KeyOf};
ghost use Rattle.ty_keys.specs.Faults.{fault_of};
ghost use Rattle.ty_keys.specs.Grammar.{IsKey, key_text};
ghost use Rattle.ty_keys.specs.Forms.{Gives, read_key};

use crate::forms::read_segments;
use crate::span::Span;
use crate::text::text_of;
use std::alloc::{AllocError, AllocFailed, Global};
use ty_base::{KEY_BYTES, NoMemory, Text};

/// A key of the feed. Which texts its parts may be, and its own text, is the grammar's.
#[derive(Drop)]
pub enum Key {
    /// `/calico/v1/Ready`
    Ready,
    /// `/calico/v1/config/NAME`
    Global {
        name: Text,
    },
    /// `/calico/v1/host/HOST/config/NAME`
    HostConfig {
        host: Text,
        name: Text,
    },
    /// `/calico/v1/host/HOST/bird_ip`
    HostIp {
        host: Text,
    },
    /// `/calico/v1/host/HOST/endpoint/ENDPOINT`
    HostEndpoint {
        host: Text,
        endpoint: Text,
    },
    /// `/calico/v1/host/HOST/workload/ORCHESTRATOR/WORKLOAD/endpoint/ENDPOINT`
    Workload {
        host: Text,
        orchestrator: Text,
        workload: Text,
        endpoint: Text,
    },
    /// `/calico/v1/policy/tier/TIER/policy/POLICY`
    Policy {
        tier: Text,
        policy: Text,
    },
    /// `/calico/v1/policy/profile/PROFILE/rules`
    ProfileRules {
        profile: Text,
    },
    /// `/calico/v1/policy/profile/PROFILE/labels`
    ProfileLabels {
        profile: Text,
    },
    /// `/calico/v1/netset/NAME`
    NetSet {
        name: Text,
    },
    /// `/calico/v1/ipam/v4/pool/ADDR-LEN` and `/calico/v1/ipam/v6/pool/ADDR-LEN`. Whether `addr` is an
    /// address is not asked here.
    Pool {
        v6: bool,
        addr: Text,
        len: u8,
    },
    /// `/calico/resources/v3/projectcalico.org/PLURAL/NAME`, with `NAMESPACE/` before the name exactly where
    /// the plural's kind is namespaced.
    Resource {
        plural: Text,
        namespace: Option<Text>,
        name: Text,
    },
}

/// Why a text is no key. Places are byte offsets from the text's first byte, which is at 0.
#[derive(Clone, Copy, Debug, PartialEq, Eq)]
pub enum KeyFault {
    /// It has more than `KEY_BYTES` bytes.
    TooLong,
    /// No form has its fixed segments and its number of segments.
    NoForm,
    /// A part has no bytes.
    EmptyPart { at: usize },
    /// A byte of a part is outside 0x21 to 0x7E.
    BadByte { at: usize },
    /// A `%` begins neither `%25` nor `%2f`.
    BadEscape { at: usize },
    /// Memory ran out.
    NoMemory,
}

impl From<AllocError> for KeyFault {
    ghost from_gives = { λ _ e. e ≡ Lacking };

    fn from(_: AllocError) -> KeyFault {
        KeyFault::NoMemory
    }
}

impl<T: Drop> From<AllocFailed<T>> for KeyFault {
    ghost from_gives = { λ _ e. e ≡ Lacking };

    fn from(_: AllocFailed<T>) -> KeyFault {
        KeyFault::NoMemory
    }
}

impl From<NoMemory> for KeyFault {
    ghost from_gives = { λ _ e. e ≡ Lacking };

    fn from(_: NoMemory) -> KeyFault {
        KeyFault::NoMemory
    }
}

impl Key {
    /// The key that a text is. It takes no memory but for the key's parts.
    pub fn read(alloc: Global, bytes: &[u8]) -> Result<Key, KeyFault>
        // What is read is a key of the grammar, and its one text.
        ensures found { IfOk result (λ k. IsKey k × (bytes.now ≡ key_text k)) }
        // Each key's text is read, unless memory runs out.
        ensures only { (k : KeyOf) → IsKey k → bytes.now ≡ key_text k → Gives (λ k. k) result (Ok k) }
        // A text that is read has no fault, and one that isn't has the fault that is told.
        ensures clean { IfOk result (λ _. fault_of bytes.now ≡ None) }
        ensures fault { IfErr result (λ f. f ≢ KeyFault.NoMemory → fault_of bytes.now ≡ Some f) }
        // The same as one function of the text.
        ensures exact { Gives (λ k. k) result (read_key bytes.now) }
    {
        read_text(alloc, bytes)
    }

    /// Appends the key's text, which `read` reads back where the key is one of the grammar (`IsKey`), as
    /// each key is that `read` gives. Want of memory leaves what was there.
    pub fn print(&self, alloc: Global, out: &mut Vec<u8>) -> Result<(), NoMemory>
        ensures ok { OnOk result (out.new.items ≡ out.old.items ++ key_text self.now) }
        ensures err { OnErr result (out.new.items ≡ out.old.items) }
    {
        let text = text_of(alloc, self)?;
        out.extend_from_slice(&text)?;
        Ok(())
    }
}

#[tactic(auto, unfolding(crate::specs::Forms::read_key))]
fn read_text(alloc: Global, bytes: &[u8]) -> Result<Key, KeyFault>
    ensures { Gives (λ k. k) result (read_key bytes.now) }
{
    if bytes.len() > KEY_BYTES {
        return Err(KeyFault::TooLong);
    }
    read_segments(alloc, Span { at: 0, bytes })
}
