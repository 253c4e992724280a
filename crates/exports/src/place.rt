// Where a cell stands: its scan, the setting before it, and its own.
ghost use Rattle.std.specs.Prelude.{◌≡◌, ◌<◌};
ghost use Rattle.exports.specs.Export.{next_place};

#[derive(Clone, Copy)]
pub struct Place {
    pub scan: u64,
    pub previous: u64,
    pub setting: u64,
}

// The place of the first cell.
pub const FIRST: Place = Place {
    scan: 0,
    previous: 0,
    setting: 0,
};

// The place of the next cell.
#[tactic(auto, unfolding(crate::specs::Export::next_place))]
pub fn next(settings: u64, p: Place) -> Place
    requires { (p.scan < 65536) × ((p.previous < 65536) × (p.setting < 65536)) }
    ensures { result ≡ next_place settings p }
{
    if p.setting + 1 < settings {
        return Place {
            setting: p.setting + 1,
            ..p
        };
    }
    if p.scan != 0 && p.previous + 1 < settings {
        return Place {
            previous: p.previous + 1,
            setting: 0,
            ..p
        };
    }
    Place {
        scan: p.scan + 1,
        previous: 0,
        setting: 0,
    }
}
