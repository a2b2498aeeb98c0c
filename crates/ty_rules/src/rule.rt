// The rules' names.
ghost use Rattle.std.specs.Prelude.{◌≡◌};
ghost use Rattle.ty_rules.specs.declared.rule.ValueFault.TheVariants.{NoMemory as Spent};

use std::alloc::AllocError;
use ty_base::NoMemory;

/// The name of a rule that a value may break.
#[derive(Clone, Copy, Debug, PartialEq, Eq)]
pub enum Rule {
    /// A number that is no whole number from -2^63 to 2^64 - 1.
    Number,
    /// More than `VALUE_BYTES` bytes of compact text.
    Size,
    /// Neither true nor false.
    Ready,
    /// A configuration that is no string.
    Config,
    /// No address of a host.
    Address,
    /// No object, or no array, where one must be.
    Shape,
    /// The name of an interface.
    Interface,
    /// Addresses of an endpoint.
    Addresses,
    /// Labels.
    Labels,
    /// Names of profiles.
    Profiles,
    /// Named ports of an endpoint.
    Ports,
    /// Whether a workload is active.
    State,
    /// A hardware address.
    Mac,
    /// Networks.
    Nets,
    /// The order of a policy or a tier.
    Order,
    /// A selector.
    Selector,
    /// The directions that a policy is for.
    Types,
    /// The network of a pool, which its key names.
    PoolCidr,
    /// A member that must be true or false.
    Flag,
    /// The version of a resource.
    ApiVersion,
    /// The kind of a resource.
    ResourceKind,
    /// The name of a resource, which its key has.
    Name,
    /// The namespace of a resource, which its key has.
    Namespace,
    /// The size of an address pool's blocks.
    BlockSize,
    /// What a rule of a policy does.
    Action,
    /// The IP version that a rule of a policy is for.
    IpVersion,
    /// The protocols of a rule of a policy.
    Protocol,
    /// The ports of a rule of a policy.
    RulePorts,
    /// The ICMP type and code of a rule of a policy.
    Icmp,
}

/// Why a value isn't taken.
#[derive(Clone, Copy, Debug, PartialEq, Eq)]
pub enum ValueFault {
    /// It breaks this rule, and none before it.
    Broken { rule: Rule },
    /// Memory ran out.
    NoMemory,
}

impl From<NoMemory> for ValueFault {
    ghost from_gives = { λ _ e. e ≡ Spent };

    fn from(_: NoMemory) -> ValueFault {
        ValueFault::NoMemory
    }
}

impl From<AllocError> for ValueFault {
    ghost from_gives = { λ _ e. e ≡ Spent };

    fn from(_: AllocError) -> ValueFault {
        ValueFault::NoMemory
    }
}
