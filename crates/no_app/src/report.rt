/// What the device did with its calls of targets, over a whole run.
#[derive(Clone, Copy, Debug, PartialEq, Eq)]
pub struct Report {
    /// The epochs begun: the sum of those finished, lost, abandoned and declined.
    pub offloads: u64,
    pub finished: u64,
    pub lost: u64,
    pub abandoned: u64,
    pub declined: u64,
    /// The pages sent to servers.
    pub pages: u64,
    /// The pages replaced by finished epochs.
    pub dirty: u64,
    /// The instructions counted in finished epochs.
    pub remote: u64,
    /// The instructions counted on the device.
    pub local: u64,
    /// The kind of the last frame that broke the rules, or 0 for bytes that are no frame.
    pub breach: Option<u8>,
}
