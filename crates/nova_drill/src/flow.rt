//! The workflow of the drill.
ghost use Rattle.std.specs.Prelude.{◌≡◌};
ghost use Rattle.nova_drill.specs.Flow as spec;

/// A log of requests, pages with their tags, and four tasks, one of each pattern.
pub fn flow_text() -> &'static str
    ensures { result.now ≡ spec.flow_text }
{
    "[[channel]]\n\
     name = \"raw\"\n\
     columns = [\"id long\", \"url chararray\", \"ms long\"]\n\
     key = [\"id\"]\n\
     [[channel]]\n\
     name = \"pages\"\n\
     columns = [\"url chararray\", \"tag chararray\"]\n\
     key = [\"url\"]\n\
     [[channel]]\n\
     name = \"slow\"\n\
     columns = [\"id long\", \"url chararray\", \"ms long\"]\n\
     key = [\"id\"]\n\
     [[channel]]\n\
     name = \"tagged\"\n\
     columns = [\"id long\", \"tag chararray\", \"ms long\"]\n\
     key = [\"id\"]\n\
     [[channel]]\n\
     name = \"stats\"\n\
     columns = [\"tag chararray\", \"n long\", \"total long\", \"worst long\"]\n\
     key = [\"tag\"]\n\
     [[channel]]\n\
     name = \"report\"\n\
     columns = [\"n long\", \"tags long\"]\n\
     key = [\"n\"]\n\
     [[task]]\n\
     name = \"pick\"\n\
     script = \"r = LOAD 'raw'; s = FILTER r BY ms >= 100; STORE s INTO 'slow';\"\n\
     inputs = [\"raw NEW\"]\n\
     output = \"slow DELTA\"\n\
     [[task]]\n\
     name = \"tag\"\n\
     script = \"s = LOAD 'slow'; p = LOAD 'pages'; j = JOIN s BY url, p BY url; t = FOREACH j GENERATE id, tag, ms; STORE t INTO 'tagged';\"\n\
     inputs = [\"slow NEW\", \"pages ALL\"]\n\
     output = \"tagged DELTA\"\n\
     [[task]]\n\
     name = \"count\"\n\
     script = \"t = LOAD 'tagged'; g = GROUP t BY tag; c = FOREACH g GENERATE group, COUNT(t), SUM(t.ms), MAX(t.ms); STORE c INTO 'stats';\"\n\
     inputs = [\"tagged NEW\"]\n\
     output = \"stats DELTA\"\n\
     [[task]]\n\
     name = \"sum\"\n\
     script = \"s = LOAD 'stats'; g = GROUP s BY n; r = FOREACH g GENERATE group, COUNT(s); STORE r INTO 'report';\"\n\
     inputs = [\"stats ALL\"]\n\
     output = \"report BASE\"\n\
     trigger = \"every 60\"\n"
}
