/// How a run ended.
#[derive(Clone, Copy, Debug, PartialEq, Eq)]
pub struct Status {
    /// 0: played to the end, nothing refused. 2: played to the end, some statements refused. 3: words of no form.
    /// 4: a read fault. 5: a write fault. 6: out of memory. 7: a script that is too long.
    pub code: u8,
    /// How many statements were refused, where the script was played to its end; else 0.
    pub refused: u64,
}
