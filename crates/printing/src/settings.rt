// The settings of a plan, one after the other.
ghost use Rattle.std.specs.Prelude.{◌+◌, ◌*◌, ◌≤◌, length};
ghost use Rattle.printing.specs.Lines.{numbered, planned};
ghost use Rattle.printing.specs.Puts.{Puts};

use crate::put::Text;

impl Text<'_> {
    // A space and three digits at most for each setting.
    fn put_settings(&mut self, settings: &[u8])
        requires { self.old.at + 4 * length settings.now ≤ length self.old.out.now }
        ensures put { Puts self.old (numbered settings.now) self.new }
        ensures upper_bound { self.new.at ≤ self.old.at + 4 * length settings.now }
    {
        for s in settings {
            self.put_spaced(u64::from(*s));
        }
    }

    // " plan" and the settings.
    pub fn put_planned(&mut self, settings: &[u8])
        requires { self.old.at + (5 + 4 * length settings.now) ≤ length self.old.out.now }
        ensures put { Puts self.old (planned settings.now) self.new }
        ensures upper_bound { self.new.at ≤ self.old.at + (5 + 4 * length settings.now) }
    {
        self.put(b" plan");
        self.put_settings(settings);
    }
}
