use smf_fmri::Text;

/// The output of a line that did not fail.
#[derive(Drop)]
pub struct Output {
    pub text: Text,
    /// svccfg ends with this line.
    pub has_ended: bool,
}

/// How a line ended that was done, or that failed.
#[derive(Clone, Copy, PartialEq, Eq)]
pub struct LineEnd {
    pub is_fine: bool,
    /// svccfg ends with this line.
    pub has_ended: bool,
}
