// Which parts of a component are there.
ghost use Rattle.std.specs.Prelude.{◌≡◌};
ghost use Rattle.font.specs.Flags.{contains, flag_bits};

// Bits in one number, as the format has them.
#[derive(Clone, Copy)]
pub struct VarcFlags(pub u32);

impl VarcFlags {
    pub const RESET_UNSPECIFIED_AXES: VarcFlags = VarcFlags(1);

    pub const HAVE_AXES: VarcFlags = VarcFlags(2);

    pub const HAVE_TRANSLATE_X: VarcFlags = VarcFlags(16);

    pub const HAVE_TRANSLATE_Y: VarcFlags = VarcFlags(32);

    pub const HAVE_ROTATION: VarcFlags = VarcFlags(64);

    pub const HAVE_SCALE_X: VarcFlags = VarcFlags(256);

    pub const HAVE_SCALE_Y: VarcFlags = VarcFlags(512);

    pub const HAVE_TCENTER_X: VarcFlags = VarcFlags(1024);

    pub const HAVE_TCENTER_Y: VarcFlags = VarcFlags(2048);

    pub const HAVE_SKEW_X: VarcFlags = VarcFlags(8192);

    pub const HAVE_SKEW_Y: VarcFlags = VarcFlags(16384);

    // No `From`: it would say no more than the original's name does.
    pub fn from_bits(bits: u32) -> Self
        ensures { result.0 ≡ bits }
    {
        VarcFlags(bits)
    }

    // Whether all of the other's bits are set.
    pub fn contains(self, other: VarcFlags) -> bool
        ensures { result ≡ contains self.0 other.0 }
    {
        self.0 & other.0 == other.0
    }

    // The bits of all flags, lowest first.
    pub fn all_bits() -> [u32; 11]
        ensures { result ≡ flag_bits }
    {
        [
            VarcFlags::RESET_UNSPECIFIED_AXES.0,
            VarcFlags::HAVE_AXES.0,
            VarcFlags::HAVE_TRANSLATE_X.0,
            VarcFlags::HAVE_TRANSLATE_Y.0,
            VarcFlags::HAVE_ROTATION.0,
            VarcFlags::HAVE_SCALE_X.0,
            VarcFlags::HAVE_SCALE_Y.0,
            VarcFlags::HAVE_TCENTER_X.0,
            VarcFlags::HAVE_TCENTER_Y.0,
            VarcFlags::HAVE_SKEW_X.0,
            VarcFlags::HAVE_SKEW_Y.0,
        ]
    }
}
