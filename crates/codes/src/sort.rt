// The sort of every encryption algorithm code.
ghost use Rattle.std.specs.Prelude.{◌≡◌};
ghost use Rattle.codes.specs.Sort.{sorted, sort_name, NamedCode, VendorSpecificCode, RestrictedCode, ReservedCode, ExactlyWhen};
ghost use Rattle.codes.specs.declared.sort.Sort.TheVariants.{Named, VendorSpecific, Restricted, Reserved};

use crate::encryption::{AES_CBC, AES_CCM, AES_GCM, ENCR_NULL};

// The vendor specific codes are all from the first to the last.
const VENDOR_SPECIFIC_FIRST: u32 = 0x8001_0400;

const VENDOR_SPECIFIC_LAST: u32 = 0x8001_ffff;

// The restricted codes are all from 0 to the last.
const RESTRICTED_LAST: u32 = 0xffff;

#[derive(Clone, Copy)]
pub enum Sort {
    // the code has a row in the table
    Named,
    VendorSpecific,
    Restricted,
    Reserved,
}

impl Sort {
    // The sort of an encryption algorithm code.
    pub fn of(code: u32) -> Sort
        ensures as_defined { result ≡ sorted code }
        ensures named_when_in_the_table { ExactlyWhen (result ≡ Named) (NamedCode code) }
        ensures vendor_specific_in_its_range { ExactlyWhen (result ≡ VendorSpecific) (VendorSpecificCode code) }
        ensures restricted_in_its_range { ExactlyWhen (result ≡ Restricted) (RestrictedCode code) }
        ensures reserved_otherwise { ExactlyWhen (result ≡ Reserved) (ReservedCode code) }
    {
        Sort::by_code(code)
    }

    // Stays: a name that a caller may keep, of which the contract says each letter; `Display` would write it and give nothing.
    pub fn name(self) -> &'static str
        ensures its_name { result.now ≡ sort_name self }
    {
        match self {
            Sort::Named => "named",
            Sort::VendorSpecific => "vendor specific",
            Sort::Restricted => "restricted",
            Sort::Reserved => "reserved",
        }
    }

    // One test after the other, the first that fits.
    fn by_code(code: u32) -> Sort
        ensures as_defined { result ≡ sorted code }
    {
        match code {
            ENCR_NULL | AES_CBC | AES_CCM | AES_GCM => Sort::Named,
            VENDOR_SPECIFIC_FIRST..=VENDOR_SPECIFIC_LAST => Sort::VendorSpecific,
            code if code <= RESTRICTED_LAST => Sort::Restricted,
            _ => Sort::Reserved,
        }
    }
}
