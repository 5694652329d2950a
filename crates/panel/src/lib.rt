// The front panel: the last reading, and how often it was painted anew.
#![tactic(auto)]

ghost use Rattle.std.specs.Prelude.{◌≡◌, true, false, Some, None};
ghost use Rattle.panel.specs.Panels.{blank, risen, shown};
ghost use Rattle.panel.specs.Readings.{alike};

mod display;
mod reading;

pub use display::Panel;
pub use reading::Reading;

impl Panel {
    // No reading yet, and no repaint.
    pub fn new() -> Panel
        ensures { result ≡ blank }
    {
        Panel {
            last: None,
            repaints: 0,
        }
    }

    // Takes a reading in. The panel is painted anew at the first one, and at each that is not the
    // same as the one before.
    pub fn show(&mut self, reading: Reading)
        ensures leaves { self.new ≡ shown self.old reading }
        ensures first { self.old.last ≡ None → self.new.repaints ≡ risen self.old.repaints }
        ensures again { (before : Reading) → self.old.last ≡ Some before → alike before reading ≡ true → self.new.repaints ≡ self.old.repaints }
        ensures other { (before : Reading) → self.old.last ≡ Some before → alike before reading ≡ false → self.new.repaints ≡ risen self.old.repaints }
        ensures stays { self.old.repaints ≡ 4294967295 → self.new.repaints ≡ 4294967295 }
    {
        match self.last {
            Some(before) if before.same(reading) => {}
            _ => self.repaint(),
        }
        self.last = Some(reading);
    }

    // Counts one repaint; the count stays at its end.
    fn repaint(&mut self)
        ensures last { self.new.last ≡ self.old.last }
        ensures repaints { self.new.repaints ≡ risen self.old.repaints }
    {
        self.repaints = self.repaints.saturating_add(1);
    }

    // The last reading, if there was one.
    pub fn reading(&self) -> Option<Reading>
        ensures { result ≡ self.now.last }
    {
        self.last
    }

    // How often the panel was painted anew.
    pub fn repaints(&self) -> u32
        ensures { result ≡ self.now.repaints }
    {
        self.repaints
    }
}

#[cfg(test)]
mod tests {
    use super::*;
    use std::test::Fail;

    #[test]
    fn paints_what_is_new(rt: HostRuntime) -> Result<(), Fail> {
        let mut panel = Panel::new();
        assert!(rt; panel.reading().is_none());
        panel.show(Reading::new(1, -250));
        panel.show(Reading::new(2, -250));
        assert_eq!(rt; panel.repaints(), 1);
        panel.show(Reading::new(2, 0));
        assert_eq!(rt; panel.repaints(), 2);
        let Some(reading) = panel.reading() else {
            return Err(Fail::new("no reading"));
        };
        assert_eq!(rt; (reading.board(), reading.number()), (2, 0));
        Ok(())
    }
}
