use rmt_values::Name;

/// The replicas of a script among workers, which of them are up, its tables by name, and how many replies were written.
#[derive(Drop)]
pub(crate) struct Cast {
    pub replicas: u8,
    pub up: [bool; 8],
    pub names: Vec<Name>,
    pub answered: u32,
}
