// Whether the tare is settled: from how many packages, and what it is on average. No option: each call is judged by the phase
// and the call together, and the two names say more there than none.
#[derive(Clone, Copy, Debug, PartialEq, Eq)]
pub enum Phase {
    Unsettled,
    Settled { total: u32, average: u32 },
}

// A call on an open sheet. Places count from 1. Weighing and correcting name their numbers, as every call does, and share no struct.
#[derive(Clone, Copy, Debug, PartialEq, Eq)]
pub enum Call {
    Weigh {
        place: u32,
        gross: u32,
        label: Option<u32>,
    },
    Correct {
        place: u32,
        gross: u32,
        label: Option<u32>,
    },
    Strike {
        place: u32,
    },
    Open {
        place: u32,
        tare: u32,
    },
    Settle,
    Reopen,
}
