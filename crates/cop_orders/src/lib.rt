//! What the program is asked for.
#![tactic(auto)]

mod orders;

pub use orders::{
    DiffOrder, Format, InitOrder, ListenOrder, MOST_UNTIL, MachineOrder, NetworkFiles, NmtOrder,
    Order, PlanOrder, Rates, Request, RoomOrder, ScanOrder, Shown, TidyChoices, TidyOrder,
    TransferOrder, VerifyOrder, WatchOrder,
};
