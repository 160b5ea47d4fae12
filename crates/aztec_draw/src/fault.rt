use aztec_layout::NoFit;
use bar_base::NoMemory;
use thiserror::Error;

/// Why no symbol is drawn.
#[derive(Debug, Drop, Error)]
pub enum DrawFault {
    /// No memory was found.
    #[error("NoMemory")]
    NoMemory,
    /// No allowed size holds the data: what the last one, by side, needs for it and holds.
    #[error("NoFit")]
    NoFit(NoFit),
}

impl From<NoMemory> for DrawFault {
    ghost use Rattle.std.specs.Prelude.{◌≡◌};
    ghost use Rattle.aztec_draw.specs.declared.fault.DrawFault.TheVariants.{NoMemory as Wanting};

    ghost from_gives = { λ _ fault. fault ≡ Wanting };

    fn from(_: NoMemory) -> DrawFault {
        DrawFault::NoMemory
    }
}

impl From<NoFit> for DrawFault {
    ghost use Rattle.std.specs.Prelude.{◌≡◌};
    ghost use Rattle.aztec_draw.specs.declared.fault.DrawFault.TheVariants.{NoFit as Misfits};

    ghost from_gives = { λ misfit fault. fault ≡ Misfits misfit };

    fn from(misfit: NoFit) -> DrawFault {
        DrawFault::NoFit(misfit)
    }
}
