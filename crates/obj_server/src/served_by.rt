// Who served a request.
ghost use Rattle.std.specs.Prelude.{◌≡◌};

/// Who served a request, as it is noted: RAM, or a device. What RAM refuses is noted as a device's.
#[derive(Clone, Copy)]
pub enum ServedBy {
    Ram,
    Device,
}

impl ServedBy {
    ghost use Rattle.obj_server.specs.ServedBy.{is_device};

    /// Whether it was a device.
    #[inline(always)]
    pub(crate) fn is_device(self) -> bool
        ensures { result ≡ is_device self }
    {
        match self {
            ServedBy::Ram => false,
            ServedBy::Device => true,
        }
    }
}
