ghost use Rattle.std.specs.Prelude.{◌≡◌};

/// The statuses that are printed, as UEFI names them without `EFI_` (UEFI 2.10, appendix D).
#[derive(Clone, Copy, Debug, PartialEq, Eq)]
pub enum Status {
    Success,
    NotFound,
    BufferTooSmall,
    InvalidParameter,
    OutOfResources,
    NoMemory,
    Unsupported,
    WriteProtected,
    SecurityViolation,
    AlreadyStarted,
    DeviceError,
}

impl Status {
    ghost use Rattle.report_text.specs.Status.{status_text};

    /// The status's characters.
    #[tactic(auto, unfolding(crate::specs::Status::status_text))]
    pub fn text(self) -> &'static str
        ensures { result.now ≡ status_text self }
    {
        match self {
            Status::Success => "SUCCESS",
            Status::NotFound => "NOT_FOUND",
            Status::BufferTooSmall => "BUFFER_TOO_SMALL",
            Status::InvalidParameter => "INVALID_PARAMETER",
            Status::OutOfResources => "OUT_OF_RESOURCES",
            Status::NoMemory => "NO_MEMORY",
            Status::Unsupported => "UNSUPPORTED",
            Status::WriteProtected => "WRITE_PROTECTED",
            Status::SecurityViolation => "SECURITY_VIOLATION",
            Status::AlreadyStarted => "ALREADY_STARTED",
            Status::DeviceError => "DEVICE_ERROR",
        }
    }
}
