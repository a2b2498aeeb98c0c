// Why a text is no address, network or range of ports.

/// Why a text is no address, network or range of ports.
#[derive(Clone, Copy, Debug, PartialEq, Eq)]
pub enum NetFault {
    /// What should be an address is none.
    BadIp,
    /// The address is good, and no prefix length that fits it follows.
    BadLength,
    /// The text is neither a port nor two with `:` between.
    BadPort,
    /// Both ports are good, and the one that should be the lower is above the other.
    Reversed { low: u16, high: u16 },
}
