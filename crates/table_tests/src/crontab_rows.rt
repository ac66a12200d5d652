//! Lines of crontabs, and what is said of them.

// Users' tables: those of crontab(5), and others.
pub const USER: &str = "\
SHELL=/bin/bash => 1 0-15 SHELL=[/bin/bash]
MAILTO=paul => 1 0-11 MAILTO=[paul]
# use /bin/bash to run commands, instead of the default /bin/sh => 1 0-63 comment
5 0 * * *       $HOME/bin/daily.job >> $HOME/tmp/out 2>&1 => 1 0-57 20 1 *fffffffe *1ffe *7f [] [$HOME/bin/daily.job >> $HOME/tmp/out 2>&1]
15 14 1 * *     $HOME/bin/monthly => 1 0-33 8000 4000 2 *1ffe *7f [] [$HOME/bin/monthly]
0 22 * * 1-5    mail -s \"It's 10pm\" joe%Joe,%%Where are your kids?% => 1 0-67 1 400000 *fffffffe *1ffe 3e [] [mail -s \"It's 10pm\" joe%Joe,%%Where are your kids?%]
23 0-23/2 * * * echo \"run 23 minutes after midn, 2am, 4am ..., everyday\" => 1 0-72 800000 555555 *fffffffe *1ffe *7f [] [echo \"run 23 minutes after midn, 2am, 4am ..., everyday\"]
5 4 * * sun     echo \"run at 5 after 4 every sunday\" => 1 0-52 20 10 *fffffffe *1ffe 1 [] [echo \"run at 5 after 4 every sunday\"]
0 */4 1 * mon   echo \"run every 4th hour on the 1st and on every Monday\" => 1 0-72 1 *111111 2 *1ffe 2 [] [echo \"run every 4th hour on the 1st and on every Monday\"]
0 0 */2 * sun   echo \"run at midn on every Sunday that's an uneven date\" => 1 0-72 1 1 *aaaaaaaa *1ffe 1 [] [echo \"run at midn on every Sunday that's an uneven date\"]
30 4 1,15 * 5 x => 1 0-15 40000000 10 8002 *1ffe 20 [] [x]
¶ => 1 0-0 blank
 \t  => 1 0-3 blank
# => 1 0-1 comment
 \t# x => 1 0-5 comment
* * * * * x # y => 1 0-15 *fffffffffffffff *ffffff *fffffffe *1ffe *7f [] [x # y]
? ? ? ? ? b => 1 0-11 ?2000 ?40000 ?10000 ?20 ?4 [] [b]
? 4 * * *  b  => 1 0-13 ?80 10 *fffffffe *1ffe *7f [] [b ]
@yearly x => 1 0-9 nick 1 1 2 2 *7f [] [x]
@annually x => 1 0-11 nick 1 1 2 2 *7f [] [x]
@monthly x => 1 0-10 nick 1 1 2 *1ffe *7f [] [x]
@weekly x => 1 0-9 nick 1 1 *fffffffe *1ffe 1 [] [x]
@daily x => 1 0-8 nick 1 1 *fffffffe *1ffe *7f [] [x]
@midnight x => 1 0-11 nick 1 1 *fffffffe *1ffe *7f [] [x]
@hourly x => 1 0-9 nick 1 *ffffff *fffffffe *1ffe *7f [] [x]
@reboot x => 1 0-9 nick never [] [x]
@Daily x => line 1: cause 13 at 0
@ x => line 1: cause 13 at 0
  @dailyx x => line 1: cause 13 at 2
@every_minute x => line 1: cause 13 at 0
@daily => line 1: cause 11 at 6
@daily   => line 1: cause 11 at 8
A= => 1 0-2 A=[]
A = b => 1 0-5 A=[b]
 \t_x9 \t=\t b c \t => 1 0-15 _x9=[b c]
A=\"b c\" => 1 0-7 A=[b c]
A=' b ' => 1 0-7 A=[ b ]
A=\"b => 1 0-4 A=[\"b]
A=b' => 1 0-4 A=[b']
A=\" => 1 0-3 A=[\"]
A=\"\" => 1 0-4 A=[]
A=\"b' => 1 0-5 A=[\"b']
A=\"\"b\"\" => 1 0-7 A=[\"b\"]
A=\"'b'\" => 1 0-7 A=['b']
A=b=c => 1 0-5 A=[b=c]
A= \"b\" c  => 1 0-9 A=[\"b\" c]
A=#b => 1 0-4 A=[#b]
CRON_TZ=Europe/Paris => 1 0-20 CRON_TZ=[Europe/Paris]
A=\"b\"x => 1 0-6 A=[\"b\"x]
9A=b => line 1: cause 9 at 0
A-B=c => line 1: cause 4 at 0
\"A\"=b => line 1: cause 9 at 0
A b=c => line 1: cause 4 at 0
=b => line 1: cause 9 at 0
A => line 1: cause 4 at 0
60 * * * * x => line 1: cause 3 at 0
5/2 * * * * x => line 1: cause 7 at 2
5-1 * * * * x => line 1: cause 5 at 0
* 24 * * * x => line 1: cause 3 at 2
\t 1 2 0 * * x => line 1: cause 3 at 6
* * * jan,foo * x => line 1: cause 4 at 10
* * * * mon-8 x => line 1: cause 3 at 12
1,,2 * * * * x => line 1: cause 1 at 2
1234567890 * * * * x => line 1: cause 2 at 0
*/0 * * * * x => line 1: cause 6 at 2
*/ * * * * x => line 1: cause 1 at 2
1 2~3 * * * x => line 1: cause 8 at 3
*5 * * * * x => line 1: cause 9 at 0
-1 * * * * x => line 1: cause 1 at 0
* * * * */x x => line 1: cause 2 at 10
1 => line 1: cause 10 at 1
1  => line 1: cause 10 at 2
1 2 3 * => line 1: cause 10 at 7
1 2 3 * * => line 1: cause 11 at 9
1 2 3 * * \t => line 1: cause 11 at 11
1 99 3 => line 1: cause 3 at 2
1 2 99 => line 1: cause 3 at 4
* * * * *x y => line 1: cause 9 at 8
* * * * *  x   => 1 0-14 *fffffffffffffff *ffffff *fffffffe *1ffe *7f [] [x  ]
* * * * * é\t%\\% => 1 0-16 *fffffffffffffff *ffffff *fffffffe *1ffe *7f [] [é\t%\\%]
* * * * * x\r => 1 0-12 *fffffffffffffff *ffffff *fffffffe *1ffe *7f [] [x\r]
\r => line 1: cause 9 at 0
A=1¶¶# b¶60 * * * * x¶* * * * * y => 1 0-3 A=[1]¶2 4-4 blank¶3 5-8 comment¶line 4: cause 3 at 0¶5 22-33 *fffffffffffffff *ffffff *fffffffe *1ffe *7f [] [y]
¶¶ ¶ => 1 0-0 blank¶2 1-1 blank¶3 2-3 blank
@reboot é¶@reboot x => 1 0-10 nick never [] [é]¶2 11-20 nick never [] [x]
1¶2 => line 1: cause 10 at 1¶line 2: cause 10 at 1
A=b\r¶ => 1 0-4 A=[b\r]
";

// System tables: those of Debian and Red Hat, and others.
pub const SYSTEM: &str = "\
SHELL=/bin/sh => 1 0-13 SHELL=[/bin/sh]
PATH=/usr/local/sbin:/usr/local/bin:/sbin:/bin:/usr/sbin:/usr/bin => 1 0-65 PATH=[/usr/local/sbin:/usr/local/bin:/sbin:/bin:/usr/sbin:/usr/bin]
17 *\t* * *\troot    cd / && run-parts --report /etc/cron.hourly => 1 0-62 20000 *ffffff *fffffffe *1ffe *7f [root] [cd / && run-parts --report /etc/cron.hourly]
25 6\t* * *\troot\ttest -x /usr/sbin/anacron || ( cd / && run-parts --report /etc/cron.daily ) => 1 0-91 2000000 40 *fffffffe *1ffe *7f [root] [test -x /usr/sbin/anacron || ( cd / && run-parts --report /etc/cron.daily )]
47 6\t* * 7\troot\tx => 1 0-17 800000000000 40 *fffffffe *1ffe 1 [root] [x]
52 6\t1 * *\troot\tx => 1 0-17 10000000000000 40 2 *1ffe *7f [root] [x]
#\tm h dom mon dow user\tcommand => 1 0-30 comment
MAILTO=root => 1 0-11 MAILTO=[root]
01 * * * * root run-parts /etc/cron.hourly => 1 0-42 2 *ffffff *fffffffe *1ffe *7f [root] [run-parts /etc/cron.hourly]
02 4 * * * root run-parts /etc/cron.daily => 1 0-41 4 10 *fffffffe *1ffe *7f [root] [run-parts /etc/cron.daily]
22 4 * * 0 root run-parts /etc/cron.weekly => 1 0-42 400000 10 *fffffffe *1ffe 1 [root] [run-parts /etc/cron.weekly]
42 4 1 * * root run-parts /etc/cron.monthly => 1 0-43 40000000000 10 2 *1ffe *7f [root] [run-parts /etc/cron.monthly]
? ? * * * a b => 1 0-13 ?400000000000 ?20 *fffffffe *1ffe *7f [a] [b]
 @daily\troot x y  => 1 0-17 nick 1 1 *fffffffe *1ffe *7f [root] [x y ]
@reboot root x => 1 0-14 nick never [root] [x]
@yesterday => line 1: cause 13 at 0
@daily => line 1: cause 12 at 6
@daily root => line 1: cause 11 at 11
@daily 9a x => line 1: cause 12 at 7
* * * * * => line 1: cause 12 at 9
* * * * *  => line 1: cause 12 at 10
* * * * * root => line 1: cause 11 at 14
* * * * * root  => line 1: cause 11 at 15
* * * * * 1a x => line 1: cause 12 at 10
* * * * *  -a x => line 1: cause 12 at 11
* * * * * a:b x => line 1: cause 12 at 10
* * * * * é x => line 1: cause 12 at 10
* * * * * _a.B-9 x => 1 0-18 *fffffffffffffff *ffffff *fffffffe *1ffe *7f [_a.B-9] [x]
* * * * * aaaaaaaaaaaaaaaaaaaaaaaaaaaaaaaa x => 1 0-44 *fffffffffffffff *ffffff *fffffffe *1ffe *7f [aaaaaaaaaaaaaaaaaaaaaaaaaaaaaaaa] [x]
* * * * * aaaaaaaaaaaaaaaaaaaaaaaaaaaaaaaaa x => line 1: cause 12 at 10
60 * * * * 1a => line 1: cause 3 at 0
* * * * 8 => line 1: cause 3 at 8
";
