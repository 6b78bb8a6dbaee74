//! BOINC's error mask of a workunit.

ghost use Rattle.std.specs.Prelude.{◌≡◌, ◌↔◌, IsTrue};
ghost use Rattle.wu_core.specs.Codes.{Decodes};
ghost use Rattle.wu_core.specs.Mask.{error_mask_code, no_errors};

/// Why a workunit is given up: one flag for each bit of BOINC's mask.
#[derive(Clone, Copy, PartialEq, Eq)]
pub struct ErrorMask {
    /// Bit 1, which this project never sets.
    pub couldnt_send_result: bool,
    /// Bit 2.
    pub too_many_error_results: bool,
    /// Bit 4.
    pub too_many_success_results: bool,
    /// Bit 8.
    pub too_many_total_results: bool,
    /// Bit 16.
    pub cancelled: bool,
    /// Bit 32, which this project never sets.
    pub no_canonical_result: bool,
}

impl ErrorMask {
    /// Returns the mask of a workunit without an error.
    pub fn none() -> Self
        // The result has no bit set.
        ensures { result ≡ no_errors }
    {
        ErrorMask {
            couldnt_send_result: false,
            too_many_error_results: false,
            too_many_success_results: false,
            too_many_total_results: false,
            cancelled: false,
            no_canonical_result: false,
        }
    }

    /// Returns whether no bit is set.
    pub fn is_none(self) -> bool
        // The result is true exactly if no bit is set.
        ensures { IsTrue result ↔ (self ≡ no_errors) }
    {
        self == ErrorMask::none()
    }

    /// Returns whether the same bits are set in both masks.
    pub fn is_same(self, other: ErrorMask) -> bool
        // It is true exactly where the masks are the same.
        ensures { IsTrue result ↔ (self ≡ other) }
    {
        self.code() == other.code()
    }

    /// Returns BOINC's number: the sum of the bits that are set, 0 to 63.
    pub fn code(self) -> u32
        // The result is the sum of the bits that are set.
        ensures { result ≡ error_mask_code self }
    {
        u32::from(self.couldnt_send_result)
            + 2 * u32::from(self.too_many_error_results)
            + 4 * u32::from(self.too_many_success_results)
            + 8 * u32::from(self.too_many_total_results)
            + 16 * u32::from(self.cancelled)
            + 32 * u32::from(self.no_canonical_result)
    }

    /// Returns the mask of a stored number, or `None` if the number is above 63.
    pub fn from_code(code: u32) -> Option<Self>
        // The sum of a mask's bits reads as that mask, and any other number as `None`.
        ensures { Decodes error_mask_code code result }
    {
        if code >= 64 {
            return None;
        }
        Some(ErrorMask {
            couldnt_send_result: code % 2 == 1,
            too_many_error_results: code / 2 % 2 == 1,
            too_many_success_results: code / 4 % 2 == 1,
            too_many_total_results: code / 8 % 2 == 1,
            cancelled: code / 16 % 2 == 1,
            no_canonical_result: code / 32 % 2 == 1,
        })
    }
}
